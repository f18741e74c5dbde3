// Bytes copied to their place: a payload's to the file, a header's to those held.
ghost use Rattle.std.specs.Prelude.{◌≡◌};
ghost use Rattle.copies.specs.Copy.{stored};

// Copies the first n bytes of a piece into the file from the place at on, where both are long enough. Where not, the file stays as it was.
#[tactic(auto, using(crate::proofs::CopiedBytes::stored_at), unfolding(crate::specs::Copy::stored))]
pub fn store(file: &mut [u8], at: usize, piece: &[u8], n: usize)
    ensures { file.new ≡ stored at n piece.now file.old }
{
    if n <= piece.len() && n <= file.len() && at <= file.len() - n {
        file[at..at + n].copy_from_slice(&piece[..n]);
    }
}
