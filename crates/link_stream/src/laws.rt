ghost use Rattle.link_stream.specs.OneEnd.{HasOneEnd};

use http_read::one_item;

/// Where no read or write failed and memory was found, the bytes behind the last request alone decide how a
/// connection ends before another, and what is written then. It does nothing when it runs.
pub fn one_end()
    ensures { HasOneEnd }
{
    one_item();
}
