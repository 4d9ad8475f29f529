//! A plain, slow program beside the rule of live manifests. It looks at each tag together with the names of the elements that
//! it stands in, lists the places of all that is at fault, and takes the least.
ghost use Rattle.std.specs.Prelude.{◌≡◌, ◌++◌, List, [], length, IfOk, OnOk, MatchOption, option_to_list, take};
ghost use Rattle.std.specs.List.{flat_map};
ghost use Rattle.sm_smil.specs.LiveFaults.{misfits, inner_faults, end_faults, tracks_faults, text_faults};
ghost use Rattle.sm_tag.specs.Elements.{bad_of};
ghost use Rattle.sm_smil.specs.Placed.{behind_tag, placed, with_child, ends_track, holding, track_at, tracks_in, ended_tracks, open_tracks, place_behind};
ghost use Rattle.sm_smil.specs.Placed.{other_place, other_places};
ghost use Rattle.sm_smil.specs.Ruled.{all_tracks, whole_tracks, cut_tracks, faults, IsLeast, IsRuled};
ghost use Rattle.sm_model.specs.Gives.{Answers};
ghost use Rattle.sm_model.specs.declared.tag.Tag.{Tag as TagValue};
ghost use Rattle.sm_smil.specs.declared.raw_track.Form.TheVariants.{Pushed, Ladder};
ghost use Rattle.sm_tag.specs.Tags.{TagsOf};
ghost use Rattle.sm_smil.specs.LiveTracks.{smil_track, ladder_track};

use crate::judge::{collides_with, is_fit, is_misread, lacks_part, option_bytes};
use crate::raw_track::{Form, RawTrack, SmilParam};
use crate::track::{ladder_tracks, smil_tracks};
use crate::walk::{add_element, raw_track, track_kind};
use sm_model::{Bytes, Channel, NoMemory, Smil, Tag, TextFault, is_same};
use sm_tag::plain::tags;
use std::alloc::Global;

fn copies(alloc: Global, names: &[Bytes]) -> Result<Vec<Bytes>, NoMemory>
    ensures { IfOk result (λ v. v.items ≡ names.now) }
{
    let mut copies = Vec::new(alloc);
    for name in names {
        copies.push(Bytes::from_slice(alloc, name.as_slice())?)?;
    }
    Ok(copies)
}

// The names of the elements that stand open behind a tag.
fn behind_tag(alloc: Global, names: &[Bytes], tag: &Tag) -> Result<Vec<Bytes>, NoMemory>
    ensures { IfOk result (λ v. v.items ≡ behind_tag names.now tag.now) }
{
    match tag {
        Tag::Start { name, empty, .. } => {
            let mut inner = copies(alloc, names)?;
            if !*empty {
                inner.push(Bytes::from_slice(alloc, name.as_slice())?)?;
            }
            Ok(inner)
        }
        Tag::Finish { .. } => copies(alloc, &names[..names.len().saturating_sub(1)]),
        _ => copies(alloc, names),
    }
}

// ---- tracks

// A param among the children of a track.
fn with_child(
    alloc: Global,
    form: Form,
    mut track: RawTrack,
    names: &[Bytes],
    tag: &Tag,
) -> Result<RawTrack, NoMemory>
    ensures { IfOk result (λ t. t ≡ with_child form track names.now tag.now) }
{
    match tag {
        Tag::Start {
            name,
            attributes,
            at,
            ..
        } => {
            if names.len() == 4 && is_same(name.as_slice(), b"param") {
                add_element(alloc, form, attributes.as_slice(), *at, &mut track)?;
            }
            Ok(track)
        }
        _ => Ok(track),
    }
}

fn ends_track(names: &[Bytes], tag: &Tag) -> bool
    ensures { result ≡ ends_track names.now tag.now }
{
    match tag {
        Tag::Finish { .. } => names.len() == 4,
        _ => false,
    }
}

// A track with its params, by the tags behind its start tag, and whether its end tag stands there.
fn holding(
    alloc: Global,
    form: Form,
    track: RawTrack,
    names: &[Bytes],
    tags: &[Tag],
) -> Result<(RawTrack, bool), NoMemory>
    ensures { IfOk result (λ r. r ≡ holding form track (placed names.now tags.now)) }
{
    match tags {
        [] => Ok((track, false)),
        [tag, others @ ..] => {
            if ends_track(names, tag) {
                return Ok((track, true));
            }
            let track = with_child(alloc, form, track, names, tag)?;
            let inner = behind_tag(alloc, names, tag)?;
            holding(alloc, form, track, &inner, others)
        }
    }
}

// The track that begins with a tag, if one does.
fn track_at(
    alloc: Global,
    form: Form,
    names: &[Bytes],
    tag: &Tag,
    others: &[Tag],
) -> Result<Option<(RawTrack, bool)>, NoMemory>
    ensures { IfOk result (λ r. option_to_list r ≡ track_at form names.now tag.now (placed (behind_tag names.now tag.now) others.now)) }
{
    match tag {
        Tag::Start {
            name,
            attributes,
            empty,
            at,
        } => {
            let Some(kind) = track_kind(names, name.as_slice()) else {
                return Ok(None);
            };
            let track = raw_track(alloc, kind, attributes.as_slice(), *at)?;
            if *empty {
                return Ok(Some((track, true)));
            }
            let inner = behind_tag(alloc, names, tag)?;
            Ok(Some(holding(alloc, form, track, &inner, others)?))
        }
        _ => Ok(None),
    }
}

// Adds the tracks among tags that stand in these elements.
fn add_tracks(
    alloc: Global,
    form: Form,
    names: &[Bytes],
    tags: &[Tag],
    tracks: &mut Vec<(RawTrack, bool)>,
) -> Result<(), NoMemory>
    ensures { OnOk result (tracks.new.items ≡ tracks.old.items ++ tracks_in form (placed names.now tags.now)) }
{
    match tags {
        [] => Ok(()),
        [tag, others @ ..] => {
            if let Some(track) = track_at(alloc, form, names, tag, others)? {
                tracks.push(track)?;
            }
            let inner = behind_tag(alloc, names, tag)?;
            add_tracks(alloc, form, &inner, others, tracks)
        }
    }
}

// The tracks of a text in order, each with whether its end tag stands there.
fn all_tracks(alloc: Global, form: Form, tags: &[Tag]) -> Result<Vec<(RawTrack, bool)>, NoMemory>
    ensures { IfOk result (λ v. v.items ≡ all_tracks form tags.now) }
{
    let mut tracks = Vec::new(alloc);
    add_tracks(alloc, form, &[], tags, &mut tracks)?;
    Ok(tracks)
}

fn ended_tracks(alloc: Global, tracks: Vec<(RawTrack, bool)>) -> Result<Vec<RawTrack>, NoMemory>
    ensures { IfOk result (λ v. v.items ≡ ended_tracks tracks.items) }
{
    let mut ended = Vec::new(alloc);
    for (track, has_ended) in tracks {
        if has_ended {
            ended.push(track)?;
        }
    }
    Ok(ended)
}

fn open_tracks(alloc: Global, tracks: Vec<(RawTrack, bool)>) -> Result<Vec<RawTrack>, NoMemory>
    ensures { IfOk result (λ v. v.items ≡ open_tracks tracks.items) }
{
    let mut open_ones = Vec::new(alloc);
    for (track, has_ended) in tracks {
        if !has_ended {
            open_ones.push(track)?;
        }
    }
    Ok(open_ones)
}

/// The tracks of a text with these tags that have ended, up to the 64th.
pub fn whole_tracks(alloc: Global, form: Form, tags: &[Tag]) -> Result<Vec<RawTrack>, NoMemory>
    ensures { IfOk result (λ v. v.items ≡ whole_tracks form tags.now) }
{
    let mut tracks = all_tracks(alloc, form, tags)?;
    tracks.truncate(64);
    ended_tracks(alloc, tracks)
}

fn cut_tracks(alloc: Global, form: Form, tags: &[Tag]) -> Result<Vec<RawTrack>, NoMemory>
    ensures { IfOk result (λ v. v.items ≡ cut_tracks form tags.now) }
{
    let mut tracks = all_tracks(alloc, form, tags)?;
    tracks.truncate(64);
    open_tracks(alloc, tracks)
}

// ---- faults

// The place of the first track behind so many.
fn place_behind(count: usize, tracks: &[(RawTrack, bool)]) -> Option<u64>
    ensures { option_to_list result ≡ place_behind count tracks.now }
{
    match tracks {
        [] => None,
        [first, others @ ..] => {
            if count == 0 {
                Some(first.0.at)
            } else {
                place_behind(count - 1, others)
            }
        }
    }
}

// Whether a tag begins an outermost element that is none of a live manifest.
fn other_place(names: &[Bytes], tag: &Tag) -> Option<u64>
    ensures { option_to_list result ≡ other_place names.now tag.now }
{
    match tag {
        Tag::Start { name, at, .. } => {
            if names.is_empty() && !is_same(name.as_slice(), b"smil") {
                Some(*at)
            } else {
                None
            }
        }
        _ => None,
    }
}

// The place of the first such element.
fn first_other(alloc: Global, names: &[Bytes], tags: &[Tag]) -> Result<Option<u64>, NoMemory>
    ensures { IfOk result (λ r. option_to_list r ≡ take 1 (other_places (placed names.now tags.now))) }
{
    match tags {
        [] => Ok(None),
        [tag, others @ ..] => match other_place(names, tag) {
            Some(at) => Ok(Some(at)),
            None => {
                let inner = behind_tag(alloc, names, tag)?;
                first_other(alloc, &inner, others)
            }
        },
    }
}

fn add_option(places: &mut Vec<u64>, at: Option<u64>) -> Result<(), NoMemory>
    ensures { OnOk result (places.new.items ≡ places.old.items ++ option_to_list at) }
{
    if let Some(at) = at {
        places.push(at)?;
    }
    Ok(())
}

// Adds the places of params whose values don't fit.
fn add_misfits(places: &mut Vec<u64>, params: &[SmilParam]) -> Result<(), NoMemory>
    ensures { OnOk result (places.new.items ≡ places.old.items ++ misfits params.now) }
{
    for param in params {
        if !is_fit(param.name, param.value.as_slice()) {
            places.push(param.at)?;
        }
    }
    Ok(())
}

// Adds what is seen before a track has ended.
fn add_inner(places: &mut Vec<u64>, track: &RawTrack) -> Result<(), NoMemory>
    ensures { OnOk result (places.new.items ≡ places.old.items ++ inner_faults track.now) }
{
    if is_misread(option_bytes(&track.bitrate)) {
        places.push(track.at)?;
    }
    add_misfits(places, track.params.as_slice())?;
    add_option(places, track.again)
}

// Adds what the end of a track shows.
#[tactic(auto, unfolding(crate::specs::LiveFaults::end_faults))]
fn add_end(
    places: &mut Vec<u64>,
    form: Form,
    earlier: &[RawTrack],
    track: &RawTrack,
) -> Result<(), NoMemory>
    ensures { OnOk result (places.new.items ≡ places.old.items ++ end_faults form earlier.now track.now) }
{
    if lacks_part(form, track) || collides_with(form, earlier, track) {
        places.push(track.at)?;
    }
    Ok(())
}

// Adds what is at fault in each of the tracks that have ended.
fn add_whole(places: &mut Vec<u64>, form: Form, tracks: &[RawTrack]) -> Result<(), NoMemory>
    ensures { OnOk result (places.new.items ≡ places.old.items ++ tracks_faults form [] tracks.now) }
{
    for i in 0..tracks.len() {
        add_inner(places, &tracks[i])?;
        add_end(places, form, &tracks[..i], &tracks[i])?;
    }
    Ok(())
}

// Adds what is at fault in each of the tracks that haven't.
fn add_cut(places: &mut Vec<u64>, tracks: &[RawTrack]) -> Result<(), NoMemory>
    ensures { OnOk result (places.new.items ≡ places.old.items ++ flat_map inner_faults tracks.now) }
{
    for track in tracks {
        add_inner(places, track)?;
    }
    Ok(())
}

// The place of the tag at fault, if there is one.
fn bad_of(tags: &[Tag]) -> Option<u64>
    ensures { result ≡ bad_of tags.now }
{
    for tag in tags {
        if let Tag::Bad { at } = tag {
            return Some(*at);
        }
    }
    None
}

// A tag at fault, else a text without a track.
fn text_fault(size: u64, bad: Option<u64>, tracks: &[RawTrack]) -> Option<u64>
    ensures { option_to_list result ≡ text_faults size bad tracks.now }
{
    match bad {
        Some(at) => Some(at),
        None => { if tracks.is_empty() { Some(size) } else { None } }
    }
}

/// The places of all that is at fault in a text of `size` bytes with these tags, in no order.
pub fn faults(alloc: Global, form: Form, size: u64, tags: &[Tag]) -> Result<Vec<u64>, NoMemory>
    ensures { IfOk result (λ v. v.items ≡ faults form size tags.now) }
{
    let whole = whole_tracks(alloc, form, tags)?;
    let mut places = Vec::new(alloc);
    add_whole(&mut places, form, &whole)?;
    add_cut(&mut places, &cut_tracks(alloc, form, tags)?)?;
    add_option(&mut places, first_other(alloc, &[], tags)?)?;
    add_option(
        &mut places,
        place_behind(64, &all_tracks(alloc, form, tags)?),
    )?;
    add_option(&mut places, text_fault(size, bad_of(tags), &whole))?;
    Ok(places)
}

/// The least of some places.
pub fn least(places: &[u64]) -> Option<u64>
    ensures { MatchOption result (places.now ≡ []) (λ at. IsLeast at places.now) }
{
    match places {
        [] => None,
        [first, others @ ..] => match least(others) {
            None => Some(*first),
            Some(at) => Some(at.min(*first)),
        },
    }
}

/// The tracks of the live server manifest of a push, as the rule says them.
pub fn read_live_manifest(alloc: Global, text: &[u8]) -> Result<Smil, TextFault>
    ensures { Answers result (λ r. (tags : List TagValue) × TagsOf text.now tags × IsRuled smil_track Pushed (length text.now) tags r) }
{
    let tags = tags(alloc, text)?;
    let places = faults(alloc, Form::Pushed, text.len() as u64, &tags)?;
    match least(&places) {
        Some(at) => Err(TextFault::Bad { at }),
        None => {
            let tracks = whole_tracks(alloc, Form::Pushed, &tags)?;
            Ok(Smil::from_vec(smil_tracks(alloc, &tracks)?))
        }
    }
}

/// The channel of a ladder, as the rule says it.
pub fn read_ladder(alloc: Global, text: &[u8]) -> Result<Channel, TextFault>
    ensures { Answers result (λ r. (tags : List TagValue) × TagsOf text.now tags × IsRuled ladder_track Ladder (length text.now) tags r) }
{
    let tags = tags(alloc, text)?;
    let places = faults(alloc, Form::Ladder, text.len() as u64, &tags)?;
    match least(&places) {
        Some(at) => Err(TextFault::Bad { at }),
        None => {
            let tracks = whole_tracks(alloc, Form::Ladder, &tags)?;
            Ok(Channel::from_vec(ladder_tracks(alloc, &tracks)?))
        }
    }
}
