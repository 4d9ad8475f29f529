//! What is promised. Each law is the contract of a function that does nothing.
ghost use Rattle.std.specs.Prelude.{◌≡◌, ◌⊎◌, ◌≤◌, ◌<◌, ◌++◌, ◌∷◌, ℕ, true, false, List, [], map, AllPairs, Contains};
ghost use Rattle.std.specs.Io.KnownBytes.{Appends};
ghost use Rattle.std.specs.Prelude.{Option, None, Some, IsSome, is_some};
ghost use Rattle.sm_model.specs.declared.act.Act.TheVariants.{Frag, Fragment as Ask};
ghost use Rattle.sm_model.specs.declared.address.Address.{Address};
ghost use Rattle.sm_model.specs.declared.cause.Cause.{Cause};
ghost use Rattle.sm_model.specs.declared.cause.Cause.TheVariants.{DiskFault};
ghost use Rattle.sm_model.specs.declared.cause.Refusal.{Refusal};
ghost use Rattle.sm_model.specs.declared.entry.Entry.{Entry};
ghost use Rattle.sm_model.specs.declared.fragment.Fragment.{Fragment};
ghost use Rattle.sm_model.specs.declared.entry.Entry.TheVariants.{Keep};
ghost use Rattle.sm_model.specs.declared.track.Track.{Track};
ghost use Rattle.sm_model.specs.Entries.{address_of};
ghost use Rattle.sm_model.specs.Items.{Given, Header};
ghost use Rattle.sm_model.specs.Items as given;
ghost use Rattle.sm_log.specs.Adds.{is_declared};
ghost use Rattle.sm_log.specs.Logs.{channel_of, kept_at, listed_in};
ghost use Rattle.sm_log.specs.Times.{entry_at};
ghost use Rattle.sm_manout.specs.Shown.{ListsIn};
ghost use Rattle.sm_push.specs.Body.{body};
ghost use Rattle.sm_site.specs.Image.{Image};
ghost use Rattle.sm_site.specs.Meanings.{Item};
ghost use Rattle.sm_archive.specs.Store.{IsStore};
ghost use Rattle.sm_reply.specs.declared.reply.Counted.{Counted};
ghost use Rattle.sm_reply.specs.declared.reply.Counted.TheVariants.{Known};
ghost use Rattle.sm_reply.specs.Replies.{manifest_of, reply_of, silent, unplaced};
ghost use Rattle.sm_origin.specs.Machine.{Fresh, Not, There, entry_of, judged};
ghost use Rattle.sm_origin.specs.Shown.{Listed};
ghost use Rattle.sm_wire.specs.declared.item.WireItem.{WireItem};
ghost use Rattle.sm_wire.specs.declared.item.WireItem.TheVariants.{Refuse};
ghost use Rattle.sm_wire.specs.Wire.{shown};
ghost use Rattle.sm_serve.specs.Connections.{received};
ghost use Rattle.sm_serve.specs.Faultless.{IsBeyond, TakesIn};
ghost use Rattle.sm_serve.specs.Moments.{IsOneOf};
ghost use Rattle.sm_serve.specs.Run.{Counts, Stepped};
ghost use Rattle.sm_serve.specs.Sent.{IsFrontOfTexts, openings};
ghost use Rattle.sm_fetch.specs.declared.dial.Exchange.{Exchange};
ghost use Rattle.sm_export.specs.Qualities.{quality};
ghost use Rattle.sm_client.specs.declared.plan.Plan.{Plan};
ghost use Rattle.sm_client.specs.Turns.{Meaning};
ghost use Rattle.sm_tool.specs.declared.answer.Answer.{Answer};
ghost use Rattle.sm_tool.specs.Edges.{dialing};
ghost use Rattle.sm_tool.specs.Rehearsals.{IsRehearsed};
ghost use Rattle.sm_words.specs.Words.{Export, Play, Pulling, Rehearse, Relay, ServeShown, Serving, Standby, asked};
ghost use Rattle.sm_promises.specs.Promises.{ProgramRan, BeginsWith, MayBeLeft, Told, KeepsAllTold};
ghost use Rattle.sm_promises.specs.Promises.{AskToServe, LoopRan, log_at, GivesWhole, DiskFailed, IsOutOfMemory};
ghost use Rattle.sm_promises.specs.Promises.{AreActs, BecomeSteps, IsFaultyPush};
ghost use Rattle.sm_promises.specs.Promises.{AllPlayed, AllWroteKept, IsExported, IsFollowed, IsPublished, IsPulled};
ghost use Rattle.sm_promises.specs.Promises.{Ending, HasAnswer, IsSaidOf, number_of};

use sm_archive::bodies_have_one_log;
use sm_export::law::{exports_are_read_back, quality_is_in_time_order};
use sm_fetch::Dial;
use sm_log::law::{sound_logs_can_be_listed, sound_logs_grow, what_is_kept_stays};
use sm_manout::law::{manifests_list_what_is_kept, whole_manifests_list_all};
use sm_origin::shown::logs_of_stores_are_real;
use sm_relay::what_is_kept_was_read;
use sm_seglog::law::stores_have_one_reading;
use sm_serve::law::{runs_only_grow, what_went_out_was_told};
use sm_site::Site;
use sm_wire::law::wire_of_front;

/// What was told stays. Run the program with any words. Whatever a crash may leave on the disk at any moment of the run is one store; its log
/// begins with the one that was found at the start, and keeps all that was acknowledged, listed, announced or served by that moment.
pub fn what_was_told_stays<S: Site, C: Dial, P>()
    ensures { (m : Meaning P) (before after : S) → ProgramRan S.Disk.seen (dialing C.log C.store C.later C.dial_faults C.chosen) m before after
        → (found : List Entry) (base : List Item) → BeginsWith S.Disk.seen before found base
        → (t : ℕ) (image : Image) → MayBeLeft S.Disk.seen before after t image
        → (kept : List Entry) × IsStore kept image × ((more : List Entry) × (kept ≡ found ++ more))
        × KeepsAllTold S.Disk.seen after base t kept }
{}

/// What `serve` does. Where the words ask to serve a store, alone or beside players, the loop ran from the log that was found, or nothing was taken
/// from a connection and nothing was sent.
pub fn serve_acts_step_by_step<S: Site, C: Dial, P>()
    ensures { (m : Meaning P) (before after : S)
        → (ran : ProgramRan S.Disk.seen (dialing C.log C.store C.later C.dial_faults C.chosen) m before after)
        → AskToServe ran.words → (found : List Entry) (base : List Item) → BeginsWith S.Disk.seen before found base
        → IsSome (S.Disk.seen.view after).contents
        → LoopRan S.Disk.seen before after found base ⊎ ((S.Disk.seen.view after).transcript ≡ Some base) }
{
    stores_have_one_reading();
    bodies_have_one_log();
}

/// The first fragment that is kept for a track, quality and start stays, with the samples that it came with: nothing
/// that comes later takes its place.
pub fn the_first_fragment_stays<S: Site, C: Dial, P>()
    // Of what was there when the run began, whatever the command is.
    ensures found { (m : Meaning P) (before after : S)
        → ProgramRan S.Disk.seen (dialing C.log C.store C.later C.dial_faults C.chosen) m before after
        → (found : List Entry) (base : List Item) → BeginsWith S.Disk.seen before found base
        → (a : Address) (place : ℕ) (f : Fragment) → kept_at found a ≡ Some (place, f)
        → (t : ℕ) (image : Image) → MayBeLeft S.Disk.seen before after t image
        → (kept : List Entry) × IsStore kept image × (kept_at kept a ≡ Some (place, f)) }
    // Of what is kept at a moment of `serve`: a crash at that moment or later leaves it.
    ensures kept { (before after : S) (found : List Entry) (base : List Item) (loop : LoopRan S.Disk.seen before after found base)
        → (t u : ℕ) → t ≤ u → (a : Address) (place : ℕ) (f : Fragment) → kept_at (log_at loop t) a ≡ Some (place, f)
        → (image : Image) → MayBeLeft S.Disk.seen before after u image
        → (kept : List Entry) × IsStore kept image × (kept_at kept a ≡ Some (place, f)) }
    ensures grows { (before after : S) (found : List Entry) (base : List Item) (loop : LoopRan S.Disk.seen before after found base)
        → (t u : ℕ) → t ≤ u → (more : List Entry) × (log_at loop u ≡ log_at loop t ++ more) }
{
    what_is_kept_stays();
    runs_only_grow();
}

/// Who asks for a fragment that is kept gets it, unless the disk failed in that step or there was no memory. A new one that is pushed is kept, unless
/// a limit is met, where nothing is in doubt since a failed write.
pub fn who_asks_for_a_kept_fragment_gets_it<S: Site>()
    ensures given { (before after : S) (found : List Entry) (base : List Item) (loop : LoopRan S.Disk.seen before after found base)
        → (x : Stepped) → IsOneOf x loop.steps → (a : Address) (place : ℕ) (f : Fragment) → x.act ≡ Ask a
        → kept_at x.before.log a ≡ Some (place, f)
        → GivesWhole x a place f ⊎ (DiskFailed x ⊎ IsOutOfMemory x) }
    ensures taken { (before after : S) (found : List Entry) (base : List Item) (loop : LoopRan S.Disk.seen before after found base)
        → (x : Stepped) → IsOneOf x loop.steps → (e : Entry) (counted : Counted) → x.before.doubt ≡ None → entry_of x.act ≡ Some e
        → judged x.before.log e ≡ Fresh counted
        → TakesIn x.before x.after e counted x.reply ⊎ (IsBeyond x.before x.after e x.reply ⊎ (DiskFailed x ⊎ IsOutOfMemory x)) }
{
    sound_logs_grow();
}

/// Each reply of `serve` is the exact bytes that the log before it gives: the manifest, the fragment with its number, or the one refusal. What goes
/// out on a connection is a front of its replies, in their order.
pub fn replies_are_what_the_log_gives<S: Site>()
    // to what only reads
    ensures reads { (before after : S) (found : List Entry) (base : List Item) (loop : LoopRan S.Disk.seen before after found base)
        → (x : Stepped) → IsOneOf x loop.steps → entry_of x.act ≡ None
        → (x.reply ≡ reply_of x.before.log x.act) ⊎ ((DiskFailed x × (x.reply ≡ unplaced DiskFault)) ⊎ IsOutOfMemory x) }
    // to a header or a fragment that may not stand there; nothing is kept of it
    ensures refuses { (before after : S) (found : List Entry) (base : List Item) (loop : LoopRan S.Disk.seen before after found base)
        → (x : Stepped) → IsOneOf x loop.steps → (e : Entry) (why : Cause) → x.before.doubt ≡ None → entry_of x.act ≡ Some e
        → judged x.before.log e ≡ Not why → (x.after.log ≡ x.before.log) × ((x.reply ≡ unplaced why) ⊎ IsOutOfMemory x) }
    ensures sent { (before after : S) (found : List Entry) (base : List Item) (loop : LoopRan S.Disk.seen before after found base)
        → (n : ℕ) → openings n loop.items ≤ 1 → IsFrontOfTexts n loop.items loop.steps loop.last }
{
    what_went_out_was_told();
}

/// Each request becomes a step. The acts of the steps of a connection that was opened once are those of what it sent, in its order: of a front of that,
/// and of all of it while the connection is open and the loop awaits an event. So who asks is answered, and nothing else is done for it.
pub fn each_request_becomes_a_step<S: Site>()
    ensures { (before after : S) (found : List Entry) (base : List Item) (loop : LoopRan S.Disk.seen before after found base)
        → (n : ℕ) → openings n loop.items ≤ 1 → BecomeSteps n loop.items loop.steps loop.last }
{
    wire_of_front();
}

/// A push is refused for its first fault, at its place, however its bytes are cut. The steps of a connection that sent one act on what stands before
/// the fault, one after the other, and then on its refusal: on a front of these, and on nothing else.
pub fn a_push_is_refused_for_its_first_fault<S: Site>()
    ensures { (before after : S) (found : List Entry) (base : List Item) (loop : LoopRan S.Disk.seen before after found base)
        → (n : ℕ) → openings n loop.items ≤ 1
        → (items : List Given) (fault : Refusal) → IsFaultyPush (received n loop.items) items fault
        → (done rest : List WireItem) × (counts : Counts) × (map shown items ++ Refuse fault ∷ [] ≡ done ++ rest)
        × AreActs n loop.steps done counts }
{
    wire_of_front();
}

/// A second fragment takes no place. One that comes for an address that is kept, with the kept duration, is acknowledged as known and nothing of it is
/// kept; whatever its samples are, since they are not compared: the samples that were kept first are the ones that are given.
pub fn a_second_fragment_takes_no_place<S: Site>()
    ensures known { (before after : S) (found : List Entry) (base : List Item) (loop : LoopRan S.Disk.seen before after found base)
        → (x : Stepped) → IsOneOf x loop.steps → (f : Fragment) → x.before.doubt ≡ None → x.act ≡ Frag f → judged x.before.log (Keep f) ≡ There Known
        → (x.after.log ≡ x.before.log) × ((x.reply ≡ silent Known) ⊎ IsOutOfMemory x) }
    ensures whatever { (log : List Entry) (f g : Fragment) → address_of g ≡ address_of f → g.duration ≡ f.duration
        → judged log (Keep f) ≡ There Known → judged log (Keep g) ≡ There Known }
{}

/// A manifest lists only what is kept, however little of it arrives, and the whole one lists each quality at each listed time.
pub fn a_manifest_lists_only_what_is_kept<S: Site, C: Dial, P>()
    // What a manifest that was sent by a moment lists, in the part of it that went out, is kept by whatever a crash may leave at that moment.
    ensures sent { (m : Meaning P) (before after : S) → ProgramRan S.Disk.seen (dialing C.log C.store C.later C.dial_faults C.chosen) m before after
        → (found : List Entry) (base : List Item) → BeginsWith S.Disk.seen before found base
        → (t : ℕ) (a : Address) → Told S.Disk.seen after base t (Listed a)
        → (image : Image) → MayBeLeft S.Disk.seen before after t image → (kept : List Entry) × IsStore kept image × IsSome (kept_at kept a) }
    // The manifest of any store: a front of it lists no more than is kept,
    ensures only { (log : List Entry) (image : Image) (channel : List Track) → IsStore log image → channel_of log ≡ Some channel
        → (part more : List ℕ) → part ++ more ≡ manifest_of channel log → (a : Address) → ListsIn part a → IsSome (kept_at log a) }
    // and the whole of it lists each track of the channel at each time at which every track of the stream is kept.
    ensures all { (log : List Entry) (image : Image) (channel : List Track) → IsStore log image → channel_of log ≡ Some channel
        → (a : Address) → is_declared channel a ≡ true → is_some (entry_at a.time (listed_in log a.stream)) ≡ true
        → ListsIn (manifest_of channel log) a }
{
    logs_of_stores_are_real();
    manifests_list_what_is_kept();
    whole_manifests_list_all();
    sound_logs_can_be_listed();
}

/// What a client writes was kept. A `play` that ends with status 0 has written, of each stream, as many fragments as were wanted, each from where the
/// one before it ended, and the origin's log keeps each of them, at the address that was asked for, with the same samples. The connection tells the
/// log that answered.
pub fn what_a_client_writes_was_kept<S: Site, C: Dial, P>()
    ensures { (m : Meaning P) (before after : S)
        → (ran : ProgramRan S.Disk.seen (dialing C.log C.store C.later C.dial_faults C.chosen) m before after)
        → (plan : Plan) → asked ran.words ≡ Some (Play plan) → ran.status ≡ 0 → (log : List Entry) → C.store ran.dial log
        → (more : List Entry) × C.store ran.dial' (log ++ more)
        × AllWroteKept plan (log ++ more) 0 plan.streams ran.around.tracks.held ran.around'.tracks.held }
{}

/// An exported file is the kept run. An `export` that ends with status 0 has written the header of its input, and then each fragment that the store
/// keeps of that name and bitrate, in the order of time; and the file is read back as just that.
pub fn an_export_is_the_kept_run<S: Site, C: Dial, P>()
    ensures file { (m : Meaning P) (before after : S)
        → (ran : ProgramRan S.Disk.seen (dialing C.log C.store C.later C.dial_faults C.chosen) m before after)
        → (folder name : List ℕ) (bitrate : ℕ) → asked ran.words ≡ Some (Export folder name bitrate) → ran.status ≡ 0
        → (found : List Entry) (base : List Item) → BeginsWith S.Disk.seen before found base
        → IsExported found name bitrate ran.around.input.told ran.around'.input.told ran.output.told ran.output'.told }
    ensures read_back { (log : List Entry) (image : Image) → IsStore log image → (name : List ℕ) (bitrate : ℕ) (i i' o o' : Option (List ℕ))
        → (x : IsExported log name bitrate i i' o o')
        → (body false x.text).items ≡ Header x.is.channel ∷ map (λ f. given.Frag x.is.id f) (quality log name bitrate) }
    ensures all { (log : List Entry) (image : Image) → IsStore log image → (name : List ℕ) (bitrate : ℕ) (f : Fragment)
        → Contains log (Keep f) → f.stream ≡ name → f.bitrate ≡ bitrate → Contains (quality log name bitrate) f }
    ensures in_order { (log : List Entry) (image : Image) → IsStore log image → (name : List ℕ) (bitrate : ℕ)
        → AllPairs (λ f g. f.time < g.time) (quality log name bitrate) }
{
    stores_have_one_reading();
    bodies_have_one_log();
    logs_of_stores_are_real();
    exports_are_read_back();
    quality_is_in_time_order();
}

/// An edge keeps what it read. Where the words ask for a relay, it has put behind the log of its store only fragments that an exchange with its origin
/// gave, whole, at their address; a crash at any moment leaves a front of these; or it made no exchange.
pub fn an_edge_keeps_what_it_read<S: Site, C: Dial, P>()
    ensures { (m : Meaning P) (before after : S)
        → (ran : ProgramRan S.Disk.seen (dialing C.log C.store C.later C.dial_faults C.chosen) m before after)
        → (edge : Pulling) → asked ran.words ≡ Some (Relay edge)
        → (earlier made : List Exchange) → C.log ran.dial ≡ Some earlier → C.log ran.dial' ≡ Some (earlier ++ made)
        → IsPulled S.Disk.seen (dialing C.log C.store C.later C.dial_faults C.chosen) edge ran.around.input ran.around'.input
        before after ran.dial ran.dial' made
        ⊎ (C.log ran.dial' ≡ C.log ran.dial) }
{
    what_is_kept_was_read();
}

/// A standby keeps what it read. Where the words ask for one, it has put behind the log of its store only fragments that an exchange with its primary
/// gave, whole, at their address, each at the place in the log that it has at the primary; a crash at any moment leaves a front of these; or it made no
/// exchange.
pub fn a_standby_keeps_what_it_read<S: Site, C: Dial, P>()
    ensures { (m : Meaning P) (before after : S)
        → (ran : ProgramRan S.Disk.seen (dialing C.log C.store C.later C.dial_faults C.chosen) m before after)
        → (edge : Pulling) → asked ran.words ≡ Some (Standby edge)
        → (earlier made : List Exchange) → C.log ran.dial ≡ Some earlier → C.log ran.dial' ≡ Some (earlier ++ made)
        → IsFollowed S.Disk.seen (dialing C.log C.store C.later C.dial_faults C.chosen) edge ran.around.input ran.around'.input
        before after ran.dial ran.dial' made
        ⊎ (C.log ran.dial' ≡ C.log ran.dial) }
{}

/// What a rehearsal says was rehearsed. A `rehearse` that ends with status 0 has written the line of a rehearsal of this number and size, whose every
/// round met what it is drawn to meet (`Rehearsed`).
pub fn what_a_rehearsal_says_was_rehearsed<S: Site, C: Dial, P>()
    ensures { (m : Meaning P) (before after : S)
        → (ran : ProgramRan S.Disk.seen (dialing C.log C.store C.later C.dial_faults C.chosen) m before after)
        → (number size : ℕ) → asked ran.words ≡ Some (Rehearse number size) → ran.status ≡ 0
        → (line : List ℕ) × IsRehearsed m number size ran.policies line × Appends ran.output.told ran.output'.told line }
{}

/// Status 0 of `serve` with players says that as many were started as were asked for, that each played, and that each ended well.
pub fn the_players_that_were_asked_for_played<S: Site, C: Dial, P>()
    ensures { (m : Meaning P) (before after : S)
        → (ran : ProgramRan S.Disk.seen (dialing C.log C.store C.later C.dial_faults C.chosen) m before after)
        → (s : Serving) (players : ℕ) → asked ran.words ≡ Some (ServeShown s players) → ran.status ≡ 0
        → AllPlayed players ran.staff ran.staff' }
{}

/// What players read is kept. Where the words ask for players, the loop published on one shelf, turn by turn, digests of fronts of its log, each before it
/// took the next event; and the players that were started read that shelf. Or nothing was taken from a connection and nothing was sent.
pub fn what_players_read_is_kept<S: Site, C: Dial, P>()
    ensures { (m : Meaning P) (before after : S)
        → (ran : ProgramRan S.Disk.seen (dialing C.log C.store C.later C.dial_faults C.chosen) m before after)
        → (s : Serving) (players : ℕ) → asked ran.words ≡ Some (ServeShown s players)
        → (found : List Entry) (base : List Item) → BeginsWith S.Disk.seen before found base → IsSome (S.Disk.seen.view after).contents
        → IsPublished S.Disk.seen s players before after ran.staff ran.staff' found ⊎ ((S.Disk.seen.view after).transcript ≡ Some base) }
{
    stores_have_one_reading();
    bodies_have_one_log();
}

/// Words that name no command touch nothing: the site, the input, the dial, the tracks and the players are as they were, and the status is 2, or 9
/// where memory was wanting.
pub fn words_that_name_no_command_touch_nothing<S: Site, C: Dial, P>()
    ensures { (m : Meaning P) (before after : S)
        → (ran : ProgramRan S.Disk.seen (dialing C.log C.store C.later C.dial_faults C.chosen) m before after)
        → asked ran.words ≡ None → (after ≡ before) × (ran.dial' ≡ ran.dial) × (ran.around' ≡ ran.around) × (ran.staff' ≡ ran.staff)
        × ((ran.status ≡ 2) ⊎ (ran.status ≡ 9)) }
{}

/// Each exit status has its one meaning. Every run ends with the number of one ending, whatever its words were; and its answer, which means what was done,
/// is one of those that end so. No two endings have one number.
pub fn each_exit_status_has_its_one_meaning<S: Site, C: Dial, P>()
    ensures ends { (m : Meaning P) (before after : S)
        → (ran : ProgramRan S.Disk.seen (dialing C.log C.store C.later C.dial_faults C.chosen) m before after)
        → (e : Ending) × (ran.status ≡ number_of e) × ((answer : Answer) × IsSaidOf e answer
        × HasAnswer S.Disk.seen (dialing C.log C.store C.later C.dial_faults C.chosen) m before after ran answer) }
    ensures one { (e f : Ending) → number_of e ≡ number_of f → e ≡ f }
{}
