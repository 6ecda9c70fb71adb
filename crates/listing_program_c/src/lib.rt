#![tactic(auto)]
// The listing program as C's `main` calls it (programs/listing).
ghost use Rattle.std.specs.Prelude.{◌≤◌, length};
ghost use Rattle.io.specs.Counts.{IsPrefixLen};

#[unsafe(no_mangle)]
pub extern "C" fn feldrime_listing_read(buf: &mut [u8]) -> usize
    ensures { IsPrefixLen result buf.new }
{
    listing_program::feldrime_listing_read(buf)
}

#[unsafe(no_mangle)]
pub extern "C" fn feldrime_listing_read_page(file: &mut [u8]) -> usize
    requires { 32798 ≤ length file.old }
    ensures { IsPrefixLen result file.new }
{
    listing_program::feldrime_listing_read_page(file)
}

#[unsafe(no_mangle)]
pub extern "C" fn feldrime_listing_page(page: &[u8]) -> u32 {
    listing_program::feldrime_listing_page(page)
}

#[unsafe(no_mangle)]
pub extern "C" fn feldrime_listing(page: &[u8], font: &[u8]) -> u32 {
    listing_program::feldrime_listing(page, font)
}
