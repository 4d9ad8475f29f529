//! Sending, and closing behind what was sent.
ghost use Rattle.std.specs.Prelude.{◌++◌};
ghost use Rattle.sm_serve.specs.Run.{sending};
ghost use Rattle.sm_serve.specs.Steps.{IsLiveOn, Sends};

use crate::still::Still;
use sm_origin::law::fewer_images_stand;
use sm_site::Site;

// Sends these bytes and right behind them those, in one send, and closes the connection where it is to be closed or the
// send failed.
pub(crate) fn tell_both<S: Site>(
    site: &mut S,
    number: u64,
    head: &[u8],
    tail: &[u8],
    close: bool,
) -> Still
    requires live { IsLiveOn S.Disk.seen number site.old }
    ensures { Sends S.Disk.seen number (sending number (head.now ++ tail.now) close) close site.old site.new result }
{
    fewer_images_stand::<S>();
    match site.send_both(number, head, tail) {
        Ok(()) => {
            if close {
                site.close(number);
                return Still::Closed;
            }
            Still::Open
        }
        Err(_) => {
            site.close(number);
            Still::Closed
        }
    }
}

// The same of bytes in one part.
pub(crate) fn tell<S: Site>(site: &mut S, number: u64, bytes: &[u8], close: bool) -> Still
    requires live { IsLiveOn S.Disk.seen number site.old }
    ensures { Sends S.Disk.seen number (sending number bytes.now close) close site.old site.new result }
{
    tell_both(site, number, bytes, &[], close)
}
