//! What a reader writes, once it has left the copy.
ghost use Rattle.std.specs.Prelude.{◌≡◌, ◌⊎◌, ◌<◌, ◌^◌, Bool, IfOk, is_some};
ghost use Rattle.std.specs.Option.{ForSome, option_map};
ghost use Rattle.std.specs.Arc.{arc_value};
ghost use Rattle.sm_model.specs.Channels.{IsChannel};
ghost use Rattle.sm_model.specs.Fragments.{IsValid};
ghost use Rattle.sm_model.specs.FragText.{frag_text};
ghost use Rattle.sm_model.specs.declared.act.Act.TheVariants.{Manifest, Fragment as Ask};
ghost use Rattle.sm_model.specs.declared.cause.Cause.TheVariants as cause;
ghost use Rattle.sm_log.specs.Adds.{id_in};
ghost use Rattle.sm_log.specs.Digests.{Digest};
ghost use Rattle.sm_head.specs.declared.reply.Content.TheVariants.{Mp4};
ghost use Rattle.sm_reply.specs.Replies.{ok, unplaced};
ghost use Rattle.sm_shelf.specs.declared.shown.Shown.TheVariants as shown;
ghost use Rattle.sm_shelf.specs.Shown.{both, IsSeen, IsTaken, IsFound, IsShown, IsListed, IsListingOf};

use crate::found::{Found, Held, Listing};
use crate::shown::Shown;
use sm_model::{Address, Bytes, Cause, Channel, NoMemory, Part, Text};
use sm_reply::{Reply, fragment_reply, tell};
use std::alloc::Global;

/// The reply that gives the manifest behind so many fragments that were added, kept so that it can be given again without a copy.
#[derive(Drop)]
pub struct Listed {
    pub count: u64,
    pub text: Part,
}

/// Behind how many that were added the manifest is that is kept.
pub fn count_of(listed: &Option<Listed>) -> Option<u64>
    ensures { result ≡ option_map (λ l. l.count) listed.now }
{
    match listed {
        Some(listed) => Some(listed.count),
        None => None,
    }
}

// A manifest's reply that was written, kept.
fn keep(alloc: Global, count: u64, text: &Text) -> Result<Listed, NoMemory>
    ensures count { IfOk result (λ l. l.count ≡ count) }
    ensures text { IfOk result (λ l. l.text ≡ text.now) }
{
    Ok(Listed {
        count,
        text: text.join(alloc)?.into_part(alloc)?,
    })
}

// The one that is kept, given again.
fn again(alloc: Global, listed: &Option<Listed>) -> Shown
    ensures { (result ≡ shown.NoMemory) ⊎ ForSome listed.now (λ l. result ≡ shown.Reply l.text) }
{
    let Some(listed) = listed else {
        return Shown::NoMemory;
    };
    match listed.text.again() {
        Ok(part) => Shown::Reply(Text::whole(alloc, Bytes::from_part(part))),
        Err(_) => Shown::NoMemory,
    }
}

// The reply that says that no channel is declared.
fn undeclared(alloc: Global) -> Shown
    ensures { (result ≡ shown.NoMemory) ⊎ (result ≡ shown.Reply (unplaced cause.NoChannel).bytes) }
{
    match tell(alloc, Cause::NoChannel) {
        Ok(reply) => Shown::Reply(reply.bytes),
        Err(NoMemory) => Shown::NoMemory,
    }
}

/// Answers a request for the manifest by what is said of it, and keeps the manifest.
pub fn manifest_of(alloc: Global, kept: Option<Listed>, listing: Listing) -> (Shown, Option<Listed>)
    ensures shown { (d : Digest) → IsListingOf d (option_map (λ l. l.count) kept) listing → ForSome kept (λ l. IsListed d l.count l.text)
        → IsShown d Manifest result.0 }
    ensures kept { (d : Digest) → IsListingOf d (option_map (λ l. l.count) kept) listing → ForSome kept (λ l. IsListed d l.count l.text)
        → ForSome result.1 (λ l. IsListed d l.count l.text) }
{
    match listing {
        Listing::Undeclared => (undeclared(alloc), kept),
        Listing::Same => (again(alloc, &kept), kept),
        Listing::New(count, text) => match keep(alloc, count, &text) {
            Ok(listed) => (Shown::Reply(text), Some(listed)),
            Err(NoMemory) => (Shown::NoMemory, kept),
        },
        Listing::NoMemory => (Shown::NoMemory, kept),
    }
}

// Writes the reply that gives a fragment which was taken out, with what is told ahead of it.
fn give(alloc: Global, channel: &Channel, address: &Address, held: &Held) -> Result<Reply, NoMemory>
    requires channel { IsChannel channel.now }
    requires valid { IsValid (arc_value held.now.fragment) }
    requires place { held.now.place < 2 ^ 32 }
    ensures { IfOk result (λ reply. reply ≡ ok Mp4 (frag_text held.now.place (id_in channel.now address.now) (arc_value held.now.fragment)
        (both held.now.first held.now.second))) }
{
    let fragment = &held.fragment;
    match (held.first, held.second) {
        (None, _) => fragment_reply(alloc, channel, address, held.place, fragment, &[]),
        (Some(first), None) => {
            fragment_reply(alloc, channel, address, held.place, fragment, &[first])
        }
        (Some(first), Some(second)) => {
            fragment_reply(
                alloc,
                channel,
                address,
                held.place,
                fragment,
                &[first, second],
            )
        }
    }
}

// The same, where the channel is there.
fn shown_by(alloc: Global, channel: &Option<Channel>, address: &Address, held: &Held) -> Shown
    requires { (d : Digest) × (knows : Bool) × IsTaken d address.now knows held.now × ForSome channel.now (IsSeen d) }
    ensures { (d : Digest) (knows : Bool) → IsTaken d address.now knows held.now → ForSome channel.now (IsSeen d) → IsShown d (Ask address.now) result }
{
    let Some(channel) = channel else {
        return Shown::NoMemory;
    };
    match give(alloc, channel, address, held) {
        Ok(reply) => Shown::Reply(reply.bytes),
        Err(NoMemory) => Shown::NoMemory,
    }
}

// The channel that was handed out, or else the one that is known.
fn either(given: Option<Channel>, known: Option<Channel>) -> Option<Channel>
    ensures { (d : Digest) → ForSome given (IsSeen d) → ForSome known (IsSeen d) → ForSome result (IsSeen d) }
{
    match given {
        Some(channel) => Some(channel),
        None => known,
    }
}

/// Answers a request for a fragment by what was found, and keeps the channel.
pub fn fragment_of(
    alloc: Global,
    address: &Address,
    known: Option<Channel>,
    found: Found,
) -> (Shown, Option<Channel>)
    requires { (d : Digest) × IsFound d address.now (is_some known) found × ForSome known (IsSeen d) }
    ensures shown { (d : Digest) → IsFound d address.now (is_some known) found → ForSome known (IsSeen d) → IsShown d (Ask address.now) result.0 }
    ensures channel { (d : Digest) → IsFound d address.now (is_some known) found → ForSome known (IsSeen d) → ForSome result.1 (IsSeen d) }
{
    match found {
        Found::Held(held) => {
            let mut held = held;
            let channel = either(held.channel.take(), known);
            (shown_by(alloc, &channel, address, &held), channel)
        }
        Found::Forward => (Shown::Forward, known),
        Found::NoMemory => (Shown::NoMemory, known),
    }
}
