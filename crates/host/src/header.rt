// The block header.
ghost use Rattle.std.specs.Prelude.{◌≡◌};
ghost use Rattle.eblock.specs.Header.{read_of, write_of, write_after};
ghost use Rattle.host.specs.Header.{fields_of};
ghost use Rattle.host.specs.Written.{written_of};

use crate::written::Written;
use eblock::header;
use eblock::header::Header;

// Stays: a C struct holds no enum with values, so a refusal, a kind and a code are numbers, 0 for none.
#[repr(C)]
#[derive(Clone, Copy, Default)]
pub struct Fields {
    // The payload's length, 0 with EODC.
    pub length: u64,
    // The offset, or the number of end markers with EODC.
    pub third: u64,
    pub descriptor: u8,
    // 1 with EODC, else 0.
    pub is_eodc: u8,
    pub refused: u8,
}

#[unsafe(no_mangle)]
pub extern "C" fn cob_header_read(bytes: &[u8]) -> Fields
    ensures { result ≡ fields_of (read_of bytes.now) }
{
    let (descriptor, length, third, is_eodc) = match header::read(bytes) {
        Ok(
            Header::Data {
                descriptor,
                length,
                offset,
            },
        ) => (descriptor, length, offset, 0),
        Ok(Header::Eodc { descriptor, count }) => (descriptor, 0, count, 1),
        Err(refusal) => {
            return Fields {
                refused: u8::from(refusal),
                ..Fields::default()
            };
        }
    };
    Fields {
        length,
        third,
        descriptor,
        is_eodc,
        refused: 0,
    }
}

// third is the offset, or the number of end markers with EODC.
#[unsafe(no_mangle)]
pub extern "C" fn cob_header_write(
    descriptor: u8,
    length: u64,
    third: u64,
    out: &mut [u8],
) -> Written
    ensures { (result ≡ written_of (write_of descriptor third out.old)) × (out.new ≡ write_after descriptor length third out.old) }
{
    Written::from(header::write(descriptor, length, third, out))
}
