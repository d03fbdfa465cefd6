// The weights of a file's bytes, as they are handed to weighing. No entry point: `answer_line` calls it.
#![tactic(auto)]

ghost use Rattle.std.specs.Prelude.{◌≡◌, take};
ghost use Rattle.weight_files.specs.WeightFiles.{weights_of, handed_over};

use arrayvec::ArrayVec;

// The weights of a file of even length, at most 65: two bytes each, low byte first.
fn even_weights(bytes: &[u8]) -> ArrayVec<u16, 65>
    ensures { result.items ≡ take 65 (weights_of bytes.now) }
{
    let (pairs, _) = bytes.as_chunks::<2>();
    let mut weights = ArrayVec::new();
    for pair in &pairs[..pairs.len().min(65)] {
        weights.push(u16::from_le_bytes(*pair));
    }
    weights
}

// The weights of a file, at most 65; where its length is odd 65, which weighing refuses with 9.
pub fn weights_from(bytes: &[u8]) -> ArrayVec<u16, 65>
    ensures { result.items ≡ handed_over bytes.now }
{
    if bytes.len() % 2 == 1 {
        return ArrayVec::from([0; 65]);
    }
    even_weights(bytes)
}
