//! The items of a connection.
ghost use Rattle.std.specs.Prelude.{◌≡◌, ◌∷◌, ◌++◌, false, List, Some, IsTrue, map};
ghost use Rattle.std.specs.List.{AllByRecursion};
ghost use Rattle.sm_wire.specs.declared.item.WireItem.{WireItem};
ghost use Rattle.sm_origin.specs.declared.origin.Origin.{Origin};
ghost use Rattle.sm_reply.specs.declared.reply.Counted.{Counted};
ghost use Rattle.sm_origin.specs.Acting.{IsValidAct};
ghost use Rattle.sm_serve.specs.Run.{Counts, idle, acting, act_of, closes, counts_after, counts_by};
ghost use Rattle.sm_serve.specs.Standing.{History, StandsOn, Keeps, Reaches};
ghost use Rattle.sm_serve.specs.Resting.{counts_of, SameBut};
ghost use Rattle.sm_serve.specs.Items.{shown_item, ItemIsValid};
ghost use Rattle.sm_serve.specs.Steps.{IsLiveOn, MayAct, OnlySent, Leaves, TakesItems};

use crate::handler::Handler;
use crate::still::Still;
use crate::tell::tell;
use sm_head::NO_MEMORY;
use sm_model::{Act, Item};
use sm_site::Site;

// Sends 500 in place of what comes next, and closes.
pub(crate) fn starve<S: Site>(site: &mut S, number: u64) -> Still
    requires live { IsLiveOn S.Disk.seen number site.old }
    ensures goes_on { (h : History) (more : List WireItem) (counts : Counts) (origin : Origin) → Keeps S.Disk.seen h site.old
        → StandsOn S.Disk.seen h.point.machine origin site.old → h.point.phase ≡ acting number more
        → Reaches S.Disk.seen h number false idle counts origin site.new }
    ensures closed { result ≡ Still.Closed }
    ensures sent { OnlySent S.Disk.seen site.old site.new }
{
    tell(site, number, NO_MEMORY, true)
}

fn act_for_item(item: Item) -> Act
    ensures valid { ItemIsValid item → IsValidAct result }
    ensures act { (counts : Counts) → act_of counts (shown_item item) ≡ Some result }
    ensures open { closes (shown_item item) ≡ false }
    ensures counts { (c : Counted) (counts : Counts) → counts_after (shown_item item) c counts ≡ counts_by c counts }
{
    match item {
        Item::Header(channel) => Act::Header(channel),
        Item::Frag(fragment) => Act::Frag(fragment),
    }
}

impl<S: Site> Handler<'_, S> {
    // Acts on an item that is no end of a push.
    pub(crate) fn act_on(&mut self, act: &Act, close: bool) -> Still
        requires valid { IsValidAct act.now }
        requires may { MayAct S.Disk.seen self.old }
        ensures goes_on { (item : WireItem) → act_of (counts_of self.old.live.now) item ≡ Some act.now → closes item ≡ close
            → ((c : Counted) (counts : Counts) → counts_after item c counts ≡ counts_by c counts)
            → TakesItems S.Disk.seen (λ more. item ∷ more) self.old self.new result }
        ensures closed { IsTrue close → result ≡ Still.Closed }
        ensures leaves { Leaves S.Disk.seen SameBut self.old self.new result }
    {
        match self.answer(act, close) {
            Some(counted) => {
                self.live.count(counted);
                Still::Open
            }
            None => Still::Closed,
        }
    }

    // Acts on one item of a push.
    fn take_item(&mut self, item: Item) -> Still
        requires valid { ItemIsValid item }
        requires may { MayAct S.Disk.seen self.old }
        ensures goes_on { TakesItems S.Disk.seen (λ more. shown_item item ∷ more) self.old self.new result }
        ensures leaves { Leaves S.Disk.seen SameBut self.old self.new result }
    {
        let act = act_for_item(item);
        self.act_on(&act, false)
    }

    // Acts on items of a push, one after the other.
    pub(crate) fn take_items(&mut self, items: Vec<Item>) -> Still
        requires valid { AllByRecursion ItemIsValid items.items }
        requires may { MayAct S.Disk.seen self.old }
        ensures goes_on { TakesItems S.Disk.seen (λ more. map shown_item items.items ++ more) self.old self.new result }
        ensures leaves { Leaves S.Disk.seen SameBut self.old self.new result }
    {
        for item in items {
            match self.take_item(item) {
                Still::Open => {}
                Still::Closed => return Still::Closed,
            }
        }
        Still::Open
    }
}
