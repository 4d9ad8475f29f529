//! The header of an input.
ghost use Rattle.std.specs.Prelude.{◌≡◌, ◌≤◌, ◌+◌, ℕ, false, List, [], length, take, map, None, Some, Err, Ok, IfOk, OnOk, IsSome};
ghost use Rattle.std.specs.List.{find};
ghost use Rattle.sm_model.specs.declared.cause.Refusal.{Refusal};
ghost use Rattle.sm_model.specs.Items.{Given, item_of};
ghost use Rattle.sm_push.specs.Body.{body, body_end};
ghost use Rattle.sm_push.specs.Standing.{Stands};
ghost use Rattle.sm_push.specs.declared.fault.PushFault.TheVariants as pushes;
ghost use Rattle.sm_export.specs.Heads.{is_header, channel_in, header_given, input_refusal, seen_after, HeadAt, SeenAt};
ghost use Rattle.sm_export.specs.declared.head.Unread.TheVariants as unread;

use sm_model::{Cause, Channel, Item, Items, Name, Refusal};
use sm_push::{Push, PushFault, front};
use std::alloc::Global;

// How many bytes are fed at once.
const PIECE: usize = 65_536;

// The header of an input.
#[derive(Drop)]
pub(crate) struct Head {
    // It ends behind so many bytes.
    pub(crate) len: usize,
    pub(crate) channel: Channel,
    // The track_ID of the quality that is asked for, if it has that.
    pub(crate) id: Option<u32>,
}

// Why an input has no header.
#[derive(Drop)]
pub(crate) enum Unread {
    Refused(Refusal),
    NoMemory,
}

impl From<PushFault> for Unread {
    ghost from_gives = { λ fault why. (r : Refusal) → why ≡ unread.Refused r → (before : List Given) × (fault ≡ pushes.Refused before r) };

    // A push that failed before is never fed here.
    fn from(fault: PushFault) -> Unread {
        match fault {
            PushFault::Refused { before: _, refusal } => Unread::Refused(refusal),
            PushFault::Failed | PushFault::NoMemory => Unread::NoMemory,
        }
    }
}

fn is_header(item: &Item) -> bool
    ensures { result ≡ is_header item.now }
{
    match item {
        Item::Header(_) => true,
        Item::Frag(_) => false,
    }
}

fn find_header(items: Items) -> Option<Item>
    ensures { result ≡ find (λ i. is_header i) (map item_of items) }
{
    items.into_vec().into_iter().find(|item| is_header(item))
}

fn channel_in(found: Option<Item>) -> Option<Channel>
    ensures { result ≡ channel_in found }
{
    match found {
        Some(Item::Header(channel)) => Some(channel),
        Some(Item::Frag(_)) => None,
        None => None,
    }
}

// The first header among the items.
fn first_header(items: Items) -> Option<Channel>
    ensures { result ≡ header_given items }
{
    channel_in(find_header(items))
}

// Where the piece begins that has the first header, behind a piece that began there and gave these items.
fn seen_after(seen: Option<usize>, items: Items, at: usize) -> Option<usize>
    ensures { result ≡ seen_after seen items at }
{
    match seen {
        Some(from) => Some(from),
        None => match first_header(items) {
            Some(_) => Some(at),
            None => None,
        },
    }
}

// Feeds all of the input, piece by piece, and says where the piece begins that has the first header.
fn feed_all(push: &mut Push, input: &[u8]) -> Result<Option<usize>, Unread>
    requires { Stands false push.old [] }
    ensures stands { OnOk result (Stands false push.new input.now) }
    ensures seen { IfOk result (λ seen. SeenAt input.now (length input.now) seen) }
    ensures refused { (r : Refusal) → result ≡ Err (unread.Refused r) → (body false input.now).refusal ≡ Some r }
{
    front();
    let mut at = 0;
    let mut seen = None;
    while at < input.len() {
        let end = input.len().min(at.saturating_add(PIECE));
        let items = push.feed(&input[at..end])?;
        seen = seen_after(seen, items, at);
        at = end;
    }
    Ok(seen)
}

// Judges the whole input, and says where the piece begins that has the first header.
fn judge(alloc: Global, input: &[u8]) -> Result<Option<usize>, Unread>
    ensures clear { OnOk result (body_end false input.now ≡ None) }
    ensures seen { IfOk result (λ seen. SeenAt input.now (length input.now) seen) }
    ensures refused { (r : Refusal) → result ≡ Err (unread.Refused r) → body_end false input.now ≡ Some r }
{
    front();
    let mut push = Push::new(alloc);
    let seen = feed_all(&mut push, input)?;
    push.end()?;
    Ok(seen)
}

// Feeds one byte after another from there on, up to the end of the first header.
fn feed_bytes(
    push: &mut Push,
    input: &[u8],
    from: usize,
    name: &Name,
    bitrate: u32,
) -> Result<Option<Head>, Unread>
    requires within { from ≤ length input.now }
    requires stands { Stands false push.old (take from input.now) }
    requires none { header_given (body false (take from input.now)).items ≡ None }
    ensures found { (h : Head) → result ≡ Ok (Some h) → (h.len ≤ length input.now) × HeadAt input.now name.now bitrate h }
    ensures none { result ≡ Ok None → header_given (body false input.now).items ≡ None }
    ensures refused { (r : Refusal) → result ≡ Err (unread.Refused r) → (body false input.now).refusal ≡ Some r }
{
    front();
    for at in from..input.len() {
        let items = push.feed(&input[at..at + 1])?;
        if let Some(channel) = first_header(items) {
            return Ok(Some(Head {
                len: at + 1,
                channel,
                id: push.track_id(name, bitrate),
            }));
        }
    }
    Ok(None)
}

// The header of an input that has one, which is not there yet before that place.
fn head_behind(
    alloc: Global,
    input: &[u8],
    from: usize,
    name: &Name,
    bitrate: u32,
) -> Result<Head, Unread>
    requires within { from ≤ length input.now }
    requires none { header_given (body false (take from input.now)).items ≡ None }
    requires some { IsSome (header_given (body false input.now).items) }
    ensures head { IfOk result (λ h. (h.len ≤ length input.now) × HeadAt input.now name.now bitrate h) }
    ensures refused { (r : Refusal) → result ≡ Err (unread.Refused r) → (body false input.now).refusal ≡ Some r }
{
    front();
    let mut push = Push::new(alloc);
    feed_all(&mut push, &input[..from])?;
    match feed_bytes(&mut push, input, from, name, bitrate)? {
        Some(head) => Ok(head),
        None => unreachable!(),
    }
}

// The header of an input, which nothing refuses. The input is fed in pieces up to its end, and only the piece that has the header byte by
// byte.
pub(crate) fn read_head(
    alloc: Global,
    input: &[u8],
    name: &Name,
    bitrate: u32,
) -> Result<Head, Unread>
    ensures head { IfOk result (λ h. (h.len ≤ length input.now) × HeadAt input.now name.now bitrate h) }
    ensures clear { OnOk result (input_refusal input.now ≡ None) }
    ensures refused { (r : Refusal) → result ≡ Err (unread.Refused r) → input_refusal input.now ≡ Some r }
{
    match judge(alloc, input)? {
        Some(from) => head_behind(alloc, input, from, name, bitrate),
        None => Err(Unread::Refused(Refusal {
            at: input.len() as u64,
            cause: Cause::NoHeader,
        })),
    }
}
