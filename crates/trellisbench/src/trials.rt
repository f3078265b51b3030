// Trials of the search: all strings of one octet scored by the plain sum, long texts with as much noise as is corrected,
// the least noise that goes astray, and the refusals in their order.
use crate::levels::{LOST, Levels, full};
use code::encode;
use refusal::Refusal;
use std::array;
use std::test::Fail;
use trellis::nearest_text;

// The levels of 48 coded bits, made from a seed: all lost, at full strength, those with lost ones between, or anything.
fn levels_from(seed: u32) -> [u8; 48] {
    let mut levels = [LOST; 48];
    let mut state = seed;
    for level in levels.iter_mut() {
        state = state.wrapping_mul(1_664_525).wrapping_add(1_013_904_223);
        let drawn = (state >> 24) as u8;
        *level = match seed % 4 {
            0 => LOST,
            1 => full(drawn >= 128),
            2 => drawn / 86 * 127,
            _ => drawn.min(254),
        };
    }
    levels
}

// The distance of a text of one octet: the plain sum over its coded bits.
fn scored(octet: u8, levels: &[u8; 48]) -> u32 {
    let mut bits = [false; 48];
    let _ = encode(&[octet], &mut bits);
    let mut sum = 0u32;
    for (bit, level) in bits.iter().zip(levels.iter()) {
        let cost = if *bit {
            254u8.saturating_sub(*level)
        } else {
            *level
        };
        sum = sum.wrapping_add(u32::from(cost));
    }
    sum
}

// The nearest of all 256 strings of one octet, the smaller of equals, with its distance.
fn nearest_of_all(levels: &[u8; 48]) -> (u8, u32) {
    let mut nearest = (0, scored(0, levels));
    for octet in 1..=255 {
        let distance = scored(octet, levels);
        if distance < nearest.1 {
            nearest = (octet, distance);
        }
    }
    nearest
}

// Spoils some of the levels of a row of places: the first are wrong, the next lost.
fn spoil(levels: &mut [u8], places: &[usize], wrong: usize, lost: usize) {
    for (n, place) in places.iter().enumerate() {
        if let Some(level) = levels.get_mut(*place) {
            if n < wrong {
                *level = 254u8.saturating_sub(*level);
            } else if n - wrong < lost {
                *level = LOST;
            }
        }
    }
}

#[test]
fn all_strings_of_one_octet(rt: HostRuntime) {
    for seed in 0..400 {
        let levels = levels_from(seed);
        let mut text = [0x5A; 2];
        let mut work = [0xFFFF; 12];
        let answer = nearest_text(&Levels { levels: &levels }, 1, &mut text, &mut work);
        let (octet, distance) = nearest_of_all(&levels);
        assert_eq!(rt; answer, Ok(distance));
        assert_eq!(rt; text, [octet, 0x5A]);
    }
}

// How many coded bits are wrong and how many lost, and the distance that this makes. Twice the wrong plus the lost is 14
// in the first and 15 in the others.
const CORRECTED: [(usize, usize, u32); 6] = [
    (7, 0, 1_778),
    (0, 15, 1_905),
    (7, 1, 1_905),
    (5, 5, 1_905),
    (3, 9, 1_905),
    (1, 13, 1_905),
];

// Where they lie: the first place, and the distance from each to the next.
const SPREADS: [(usize, usize); 5] = [(0, 1), (3_001, 2), (7_681, 1), (5, 511), (100, 4)];

#[test]
fn corrected_noise(rt: HostRuntime) {
    let sent: [u8; 240] = array::from_fn(|i| (i.wrapping_mul(151) % 256) as u8);
    let mut bits = [false; 7_696];
    assert_eq!(rt; encode(&sent, &mut bits), Ok(7_696));
    for (wrong, lost, distance) in CORRECTED {
        for (first, apart) in SPREADS {
            let mut levels = bits.map(full);
            let places: [usize; 15] = array::from_fn(|n| apart.wrapping_mul(n).wrapping_add(first));
            spoil(&mut levels, &places, wrong, lost);
            let mut text = [0xA5; 240];
            let mut work = [0xFFFF; 1_924];
            let answer = nearest_text(&Levels { levels: &levels }, 240, &mut text, &mut work);
            assert_eq!(rt; answer, Ok(distance));
            assert!(rt; text == sent);
        }
    }
}

// The 16 places where the coded bits of 0x00 and 0x01 differ.
const APART: [usize; 16] = [0, 1, 2, 3, 6, 7, 8, 9, 11, 13, 14, 15, 16, 17, 18, 19];

// The octet sent, how many of those places are wrong and how many lost, and the octet found.
const ASTRAY: [(u8, usize, usize, u8); 9] = [
    (0x01, 7, 1, 0x01),
    (0x01, 8, 0, 0x00),
    (0x01, 7, 2, 0x00),
    (0x01, 0, 15, 0x01),
    (0x01, 0, 16, 0x00),
    (0x00, 7, 1, 0x00),
    (0x00, 8, 0, 0x00),
    (0x00, 9, 0, 0x01),
    (0x00, 8, 1, 0x01),
];

#[test]
fn least_noise_that_goes_astray(rt: HostRuntime) {
    for (sent, wrong, lost, found) in ASTRAY {
        let mut bits = [false; 48];
        assert_eq!(rt; encode(&[sent], &mut bits), Ok(48));
        let mut levels = bits.map(full);
        spoil(&mut levels, &APART, wrong, lost);
        let mut text = [0xA5];
        let mut work = [0xFFFF; 12];
        let answer = nearest_text(&Levels { levels: &levels }, 1, &mut text, &mut work);
        assert!(rt; answer.is_ok());
        assert_eq!(rt; text, [found]);
    }
}

// The number of octets, the places of text memory and of working memory, and the refusal.
const REFUSED: [(usize, usize, usize, Refusal); 5] = [
    (0, 0, 0, Refusal::EmptyText),
    (241, 0, 0, Refusal::TextTooLong),
    (240, 239, 1_924, Refusal::MemoryTooShort),
    (240, 240, 1_923, Refusal::MemoryTooShort),
    (1, 1, 11, Refusal::MemoryTooShort),
];

#[test]
fn refusals_in_order(rt: HostRuntime) -> Result<(), Fail> {
    for (m, places, work_places, refusal) in REFUSED {
        let mut text = vec![in rt.alloc(); 0xA5u8; places]?;
        let mut work = vec![in rt.alloc(); 0xFFFFu16; work_places]?;
        let answer = nearest_text(&Levels { levels: &[] }, m, &mut text, &mut work);
        assert_eq!(rt; answer, Err(refusal));
        assert!(rt;
            text.iter().all(|octet| *octet == 0xA5),
            "a refusal wrote text"
        );
        assert!(rt;
            work.iter().all(|number| *number == 0xFFFF),
            "a refusal wrote working memory"
        );
    }
    Ok(())
}

#[test]
fn longest_text_of_lost_bits(rt: HostRuntime) -> Result<(), Fail> {
    let mut text = vec![in rt.alloc(); 0xA5u8; 241]?;
    let mut work = vec![in rt.alloc(); 0xFFFFu16; 1_924]?;
    let answer = nearest_text(&Levels { levels: &[] }, 240, &mut text, &mut work);
    assert_eq!(rt; answer, Ok(977_392));
    for (i, octet) in text.iter().enumerate() {
        assert_eq!(rt; *octet, if i < 240 { 0 } else { 0xA5 });
    }
    Ok(())
}
