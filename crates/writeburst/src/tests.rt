// What is handed on of the text 0x00. Both files were worked out apart from this code.
use crate::outgoing::Outgoing;
use std::test::Fail;

// The values file.
const VALUES: &[u8; 453] =
    b"01\n8181\n7F81\n7F7F\n817F\n7F81\n7F81\n7F81\n7F7F\n7F81\n817F\n7F81\n7F7F\n7F81\n7F81\n7F7F\n817F\n7F81\n8181\n7F81\n817F\n7F81\n7F7F\n7F81\n8181\n7F81\n7F7F\n817F\n817F\n7F81\n7F7F\n817F\n7F81\n7F81\n7F7F\n817F\n7F81\n7F81\n7F7F\n817F\n7F7F\n7F81\n7F7F\n8181\n7F7F\n7F81\n7F7F\n8181\n817F\n7F81\n7F7F\n8181\n8181\n7F81\n7F7F\n8181\n7F7F\n7F81\n7F7F\n8181\n7F81\n7F81\n7F7F\n0000\n0000\n7F81\n7F7F\n8100\n0000\n7F81\n7F7F\n8100\n0000\n7F81\n7F7F\n8181\n0000\n7F81\n7F7F\n8181\n7F7F\n7F81\n7F7F\n8181\n7F7F\n7F81\n7F7F\n8181\n7F7F\n7F81\n7F7F\n";

// Samples of the first two frames, 400 and 800 Hz: the place in the file, the sample, lowest octet first.
const SAMPLES: [(usize, [u8; 2]); 6] = [
    (44, [0, 0]),
    (46, [200, 19]),
    (122, [56, 236]),
    (124, [0, 0]),
    (126, [152, 37]),
    (134, [0, 0]),
];

#[test]
fn handed_on(rt: HostRuntime) -> Result<(), Fail> {
    let heap = rt.alloc();
    let text = vec![in heap; 0u8]?;
    let outgoing = Outgoing::of(heap, text)?;
    let values = outgoing.values(heap)?;
    assert_eq!(rt; values.as_slice(), VALUES.as_slice());
    let sound = outgoing.sound(heap)?;
    assert_eq!(rt; sound.len(), 7_244);
    for (place, octets) in SAMPLES {
        assert_eq!(rt; sound.get(place).copied(), Some(octets[0]));
        assert_eq!(rt; sound.get(place.wrapping_add(1)).copied(), Some(octets[1]));
    }
    Ok(())
}
