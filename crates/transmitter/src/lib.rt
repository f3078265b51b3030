// The transmitter: a text to its burst.
#![tactic(auto)]

ghost use Rattle.std.specs.Prelude.{◌≡◌, map, length};
ghost use Rattle.refusal.specs.Answer.{after};
ghost use Rattle.stage.specs.Elements.{octet_of};
ghost use Rattle.transmitter.specs.Burst.{burst, write_answer, element_answer};

use code::{coded_bit, coded_count};
use refusal::Refusal;
use stage::{Content, Element, Stage};

// The element that a content stands for when the text's coded bits enter the stage.
fn element(content: Content, text: &[u8]) -> Result<Element, Refusal>
    ensures { result ≡ element_answer text.now content }
{
    match content {
        Content::Carried(i) => Ok(Element::from(coded_bit(text, i)?)),
        Content::Inverted(i) => Ok(Element::from(!coded_bit(text, i)?)),
        Content::Fixed(bit) => Ok(Element::from(bit)),
        Content::Mute => Ok(Element::Mute),
    }
}

// Writes the burst of the text through the stage into the first places of `out`, an octet for each element, in one
// pass, and answers its length.
pub fn write<S: Stage>(stage: &S, text: &[u8], out: &mut [u8]) -> Result<usize, Refusal>
    ensures answer { result ≡ write_answer (S.Stage.meaning stage.now) text.now (length out.old) }
    ensures memory { out.new ≡ after result (map octet_of (burst (S.Stage.meaning stage.now) text.now)) out.old }
{
    let n = coded_count(text.len())?;
    let length = stage.length(n)?;
    if out.len() < length {
        return Err(Refusal::MemoryTooShort);
    }
    for (place, octet) in out[..length].iter_mut().enumerate() {
        *octet = u8::from(element(stage.content(n, place)?, text)?);
    }
    Ok(length)
}
