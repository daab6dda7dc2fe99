// Bytes copied over others.
ghost use Rattle.std.specs.Prelude.{◌≡◌};
ghost use Rattle.answer.specs.Output.{over};

// The first bytes of out become those of text, as many as both have. No method of slices promises
// that: `copy_from_slice` asks for equal lengths.
pub fn copy(text: &[u8], out: &mut [u8])
    ensures { out.new ≡ over text.now out.old }
{
    let both = text.len().min(out.len());
    out[..both].copy_from_slice(&text[..both]);
}
