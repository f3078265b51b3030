// One character of UTF-8, by the ranges that its octets lie in. std's `from_utf8` says how far a whole slice is valid, and
// the octets of its first character would still have to be told apart.
ghost use Rattle.std.specs.Prelude.{◌≡◌, ◌∷◌, true, Decides};
ghost use Rattle.std.proofs.Math.Utf8.{scalar};
ghost use Rattle.character.specs.Forms.{Tail, Second, least_second, greatest_second, with_behind, Found};

// Whether an octet may stand third or fourth.
fn is_tail(octet: u8) -> bool
    ensures { Decides result (Tail octet) }
{
    matches!(octet, 0x80..=0xBF)
}

// The least octet that may stand second.
fn least_second(first: u8) -> u8
    ensures { result ≡ least_second first }
{
    match first {
        0xE0 => 0xA0,
        0xF0 => 0x90,
        _ => 0x80,
    }
}

// The greatest octet that may stand second.
fn greatest_second(first: u8) -> u8
    ensures { result ≡ greatest_second first }
{
    match first {
        0xED => 0x9F,
        0xF4 => 0x8F,
        _ => 0xBF,
    }
}

// Whether an octet may stand second, behind a first.
fn may_follow(first: u8, second: u8) -> bool
    ensures { Decides result (Second first second) }
{
    (least_second(first)..=greatest_second(first)).contains(&second)
}

// The character whose highest bits are given, and whose lower ones are the lowest six of each octet behind.
fn spelled(high: u8, behind: &[u8]) -> char
    requires { scalar (with_behind high behind.now) ≡ true }
    ensures { result ≡ with_behind high behind.now }
{
    let number = behind.iter().fold(u32::from(high), |number, octet| {
        number << 6 | u32::from(octet & 0x3F)
    });
    char::from_u32(number).unwrap()
}

// The character at the front of octets, by the first of them and those behind it, where one stands there.
pub fn character(first: u8, behind: &[u8]) -> Option<char>
    ensures { Found (first ∷ behind.now) result }
{
    match (first, behind) {
        (0x00..=0x7F, _) => Some(char::from(first)),
        (0xC2..=0xDF, &[second, ..]) if may_follow(first, second) => {
            Some(spelled(first & 0x1F, &[second]))
        }
        (0xE0..=0xEF, &[second, third, ..]) if may_follow(first, second) && is_tail(third) => {
            Some(spelled(first & 0x0F, &[second, third]))
        }
        (0xF0..=0xF4, &[second, third, fourth, ..])
            if may_follow(first, second) && is_tail(third) && is_tail(fourth) => {
            Some(spelled(first & 0x07, &[second, third, fourth]))
        }
        _ => None,
    }
}
