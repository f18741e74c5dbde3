// Long arrays, made by functions of their own, since the check of a larger function that makes one runs out of stack.
ghost use Rattle.std.specs.Prelude.{◌≡◌, length};

pub fn bytes<const N: usize>(value: u8) -> [u8; N]
    ensures { N ≡ length result }
{
    [value; N]
}

pub fn entries<const N: usize>(value: u64) -> [u64; N]
    ensures { N ≡ length result }
{
    [value; N]
}
