// A ledger as range list and as saved bytes, read and written, and saved bytes of one kind as those of the other.
ghost use Rattle.std.specs.Prelude.{◌≡◌};
ghost use Rattle.answers.specs.Refusal.{number_in};
ghost use Rattle.rangelists.specs.RangeText.{read_ranges, read_ranges_after, write_ranges, write_ranges_after};
ghost use Rattle.savedledgers.specs.Saved.{read_saved, read_saved_after, read_sized, read_sized_after, write_saved, write_saved_after};
ghost use Rattle.savedconversions.specs.Conversion.{to_two, to_two_after, to_one, to_one_after};
ghost use Rattle.host.specs.Loaded.{loaded_for_of};
ghost use Rattle.host.specs.Written.{written_of};

use crate::written;
use crate::written::Written;
use rangelists::ranges;
use savedconversions::conversion;
use savedledgers::saved;

// What the reader of kind 2 answers.
// Stays: a C struct holds no enum with values, so a refusal, a kind and a code are numbers, 0 for none.
#[repr(C)]
#[derive(Clone, Copy)]
pub struct LoadedFor {
    // The length of the file that the ledger is for.
    pub length: u64,
    pub refused: u8,
}

#[unsafe(no_mangle)]
pub extern "C" fn cob_ranges_read(text: &[u8], ledger: &mut [u64]) -> u8
    ensures { (result ≡ number_in (read_ranges text.now ledger.old)) × (ledger.new ≡ read_ranges_after text.now ledger.old) }
{
    written::number_of(ranges::read(text, ledger))
}

#[unsafe(no_mangle)]
pub extern "C" fn cob_ranges_write(ledger: &[u64], out: &mut [u8]) -> Written
    ensures { (result ≡ written_of (write_ranges ledger.now out.old)) × (out.new ≡ write_ranges_after ledger.now out.old) }
{
    Written::from(ranges::write(ledger, out))
}

#[unsafe(no_mangle)]
pub extern "C" fn cob_saved_read(bytes: &[u8], ledger: &mut [u64]) -> u8
    ensures { (result ≡ number_in (read_saved bytes.now ledger.old)) × (ledger.new ≡ read_saved_after bytes.now ledger.old) }
{
    written::number_of(saved::read(bytes, ledger))
}

#[unsafe(no_mangle)]
pub extern "C" fn cob_saved_write(ledger: &[u64], out: &mut [u8]) -> Written
    ensures { (result ≡ written_of (write_saved ledger.now out.old)) × (out.new ≡ write_saved_after ledger.now out.old) }
{
    Written::from(saved::write(ledger, out))
}

// Reads kind 2, which says how long the file is.
#[unsafe(no_mangle)]
pub extern "C" fn cob_saved2_read(bytes: &[u8], ledger: &mut [u64]) -> LoadedFor
    ensures { (result ≡ loaded_for_of (read_sized bytes.now ledger.old)) × (ledger.new ≡ read_sized_after bytes.now ledger.old) }
{
    match saved::read_sized(bytes, ledger) {
        Ok(length) => LoadedFor { length, refused: 0 },
        Err(refusal) => LoadedFor {
            length: 0,
            refused: u8::from(refusal),
        },
    }
}

// Kind 1 as kind 2, for a file of this length.
#[unsafe(no_mangle)]
pub extern "C" fn cob_saved_to_2(len: u64, bytes: &[u8], out: &mut [u8]) -> Written
    ensures { (result ≡ written_of (to_two len bytes.now out.old)) × (out.new ≡ to_two_after len bytes.now out.old) }
{
    Written::from(conversion::to_two(len, bytes, out))
}

// Kind 2 as kind 1.
#[unsafe(no_mangle)]
pub extern "C" fn cob_saved_to_1(bytes: &[u8], out: &mut [u8]) -> Written
    ensures { (result ≡ written_of (to_one bytes.now out.old)) × (out.new ≡ to_one_after bytes.now out.old) }
{
    Written::from(conversion::to_one(bytes, out))
}
