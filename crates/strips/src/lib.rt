// A strip says how storage behaves, a byte to each step. Posting calls and lane calls lend one alike. Nothing here has a
// `requires`.
#![tactic(auto)]

ghost use Rattle.std.specs.Prelude.{◌≡◌, leb, drop};
ghost use Rattle.std.specs.List.{list_all};
ghost use Rattle.strips.specs.Strips.{proper_strip, byte_at};

// The limit of the definitions.
pub const MOST_BYTES: usize = 1024;

// No byte is above 2.
fn proper_bytes(strip: &[u8]) -> bool
    ensures { result ≡ list_all (λ byte. leb byte 2) strip.now }
{
    strip.iter().all(|byte| *byte <= 2)
}

// The strip is not over its limit, and has no byte above 2.
#[tactic(auto, using(crate::proofs::Walk::strip_over, crate::proofs::Walk::strip_within, crate::proofs::Walk::bytes_all))]
pub fn proper_strip(strip: &[u8]) -> bool
    ensures { result ≡ proper_strip strip.now }
{
    strip.len() <= MOST_BYTES && proper_bytes(strip)
}

// The next byte of what is left of a strip, which is then read; past the end reads 0. What a byte does to a step is said in the rules
// of postings (`insertion`, `removal`) and of lanes (`compared`, `refreshed`), of the bytes themselves, so no type stands for them.
pub fn next_byte(strip: &mut &[u8]) -> u8
    ensures byte { result ≡ byte_at strip.old.now 0 }
    ensures strip { strip.new.now ≡ drop 1 strip.old.now }
{
    strip.split_off_first().copied().unwrap_or(0)
}
