//! One act of a connection, and its reply.
ghost use Rattle.std.specs.Prelude.{◌≡◌, None, IsTrue};
ghost use Rattle.sm_origin.specs.Acting.{IsValidAct};
ghost use Rattle.sm_serve.specs.Run.{phase_after, sent_of};
ghost use Rattle.sm_serve.specs.Steps.{IsLiveOn, MayAct, Sends, Leaves, Acts, still_of};

use crate::handler::Handler;
use crate::still::Still;
use crate::tell::{tell, tell_both};
use sm_head::NO_MEMORY;
use sm_model::Act;
use sm_origin::law::fewer_images_stand;
use sm_origin::{Counted, Reply};
use sm_site::Site;

// Sends a reply, where it has bytes, and closes the connection where that is to be closed.
fn send_reply<S: Site>(site: &mut S, number: u64, reply: &Reply, close: bool) -> Still
    requires live { IsLiveOn S.Disk.seen number site.old }
    ensures { Sends S.Disk.seen number (phase_after number (sent_of reply.now) close) close site.old site.new result }
{
    if reply.is_silent() {
        return end_item(site, number, close);
    }
    if reply.is_starved() {
        return tell(site, number, NO_MEMORY, close);
    }
    let (head, tail) = reply.bytes.parts();
    tell_both(site, number, head, tail, close)
}

// Ends an item that has no reply.
fn end_item<S: Site>(site: &mut S, number: u64, close: bool) -> Still
    requires live { IsLiveOn S.Disk.seen number site.old }
    ensures { Sends S.Disk.seen number (phase_after number None close) close site.old site.new result }
{
    fewer_images_stand::<S>();
    if close {
        site.close(number);
        return Still::Closed;
    }
    Still::Open
}

impl<S: Site> Handler<'_, S> {
    // Acts, and sends the reply. What the act counts, or None where the connection was closed.
    pub(crate) fn answer(&mut self, act: &Act, close: bool) -> Option<Counted>
        requires valid { IsValidAct act.now }
        requires may { MayAct S.Disk.seen self.old }
        ensures goes_on { Acts S.Disk.seen act.now close self.old self.new result }
        ensures closed { IsTrue close → result ≡ None }
        ensures leaves { Leaves S.Disk.seen (λ old new. new ≡ old) self.old self.new (still_of result) }
    {
        fewer_images_stand::<S>();
        let reply = self.origin.act(self.alloc, self.site, act);
        let close = reply.close | close;
        match send_reply(self.site, self.live.number, &reply, close) {
            Still::Open => Some(reply.counted),
            Still::Closed => None,
        }
    }
}
