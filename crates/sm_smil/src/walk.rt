//! The walk over the tags of a live manifest.
ghost use Rattle.std.specs.Prelude.{◌≡◌, ◌-◌, [], length, take, codes, IfOk, OnOk, None, option_map};
ghost use Rattle.sm_smil.specs.LiveWalk.{is_read, with_param, with_named, with_element, is_switch, track_kind};
ghost use Rattle.sm_tag.specs.Elements.{attribute_of};

use crate::names::{kind_in, param_name, value_of};
use crate::raw_track::{Form, ParamName, RawTrack, SmilParam, SmilParams};
use sm_model::{Attribute, Bytes, Kind, NoMemory, Tag, keep_first};
use sm_tag::attribute_of;
use std::alloc::Global;
use std::marker::Model;

/// What was met so far.
#[derive(Drop)]
pub struct Walk {
    path: Vec<Bytes>,
    other: Option<u64>,
    done: Vec<RawTrack>,
    current: Option<RawTrack>,
    over: Option<u64>,
}

impl Model for Walk {
    ghost use Rattle.sm_smil.specs.LiveWalk.{Walk as Met};

    ghost Value = { Met };

    ghost view = { λ w. record { path = w.path.items; other = w.other; done = w.done.items; current = w.current; over = w.over } };
}

fn is_read(form: Form, track: &RawTrack, name: ParamName) -> bool
    ensures { result ≡ is_read form track.now name }
{
    match name {
        ParamName::SystemBitrate => track.bitrate.is_none(),
        ParamName::TimeScale => match form {
            Form::Pushed => false,
            Form::Ladder => true,
        },
        _ => true,
    }
}

fn add_param(track: &mut RawTrack, param: SmilParam) -> Result<(), NoMemory>
    ensures { OnOk result (track.new ≡ with_param track.old param) }
{
    if value_of(param.name, track.params.as_slice()).is_some() {
        keep_first(&mut track.again, param.at);
        Ok(())
    } else {
        track.params.push(param)
    }
}

fn add_named(
    alloc: Global,
    form: Form,
    track: &mut RawTrack,
    at: u64,
    name: Option<ParamName>,
    value: &[u8],
) -> Result<(), NoMemory>
    ensures { OnOk result (track.new ≡ with_named form track.old at name value.now) }
{
    let Some(name) = name else {
        return Ok(());
    };
    if !is_read(form, track, name) {
        return Ok(());
    }
    let value = Bytes::from_slice(alloc, value)?;
    add_param(track, SmilParam { name, value, at })
}

/// Adds a `param` element to a track, where the track reads it.
pub fn add_element(
    alloc: Global,
    form: Form,
    attributes: &[Attribute],
    at: u64,
    track: &mut RawTrack,
) -> Result<(), NoMemory>
    ensures { OnOk result (track.new ≡ with_element form attributes.now at track.old) }
{
    let name = attribute_of(b"name", attributes);
    let value = attribute_of(b"value", attributes);
    match (name, value) {
        (Some(name), Some(value)) => add_named(alloc, form, track, at, param_name(name), value),
        _ => Ok(()),
    }
}

// Whether these are smil, body and switch.
fn is_switch(path: &[Bytes]) -> bool
    ensures { result ≡ is_switch path.now }
{
    match path {
        [a, b, c] => {
            a.as_slice() == b"smil".as_slice()
                && b.as_slice() == b"body".as_slice()
                && c.as_slice() == b"switch".as_slice()
        }
        _ => false,
    }
}

/// The kind of track that an element of this name is behind these open elements, if it is one.
pub fn track_kind(path: &[Bytes], name: &[u8]) -> Option<Kind>
    ensures { result ≡ track_kind path.now name.now }
{
    if is_switch(path) { kind_in(name) } else { None }
}

fn copied(alloc: Global, text: Option<&[u8]>) -> Result<Option<Bytes>, NoMemory>
    ensures { IfOk result (λ copy. copy ≡ option_map (λ x. x.now) text.entry) }
{
    match text {
        None => Ok(None),
        Some(text) => Ok(Some(Bytes::from_slice(alloc, text)?)),
    }
}

/// A track as its start tag says it.
pub fn raw_track(
    alloc: Global,
    kind: Kind,
    attributes: &[Attribute],
    at: u64,
) -> Result<RawTrack, NoMemory>
    ensures { IfOk result (λ t. t ≡ record { kind = kind; at = at; bitrate = attribute_of (codes "systemBitrate") attributes.now; params = []; again = None }) }
{
    Ok(RawTrack {
        kind,
        at,
        bitrate: copied(alloc, attribute_of(b"systemBitrate", attributes))?,
        params: SmilParams::new(alloc),
        again: None,
    })
}

impl Walk {
    ghost use Rattle.sm_smil.specs.LiveWalk.{nothing_met, step, begins, passes, meets, begins_element, ends_element};

    /// Nothing was met yet.
    pub fn new(alloc: Global) -> Walk
        ensures { result ≡ nothing_met }
    {
        Walk {
            path: Vec::new(alloc),
            other: None,
            done: Vec::new(alloc),
            current: None,
            over: None,
        }
    }

    /// The tracks that have ended.
    pub fn done(&self) -> &[RawTrack]
        ensures { result.now ≡ self.now.done }
    {
        &self.done
    }

    /// The one that hasn't.
    pub fn current(&self) -> &Option<RawTrack>
        ensures { result.now ≡ self.now.current }
    {
        &self.current
    }

    /// The place of an outermost element that isn't smil.
    pub fn other(&self) -> Option<u64>
        ensures { result ≡ self.now.other }
    {
        self.other
    }

    /// The place of the 65th track.
    pub fn over(&self) -> Option<u64>
        ensures { result ≡ self.now.over }
    {
        self.over
    }

    fn begin(&mut self, empty: bool, track: RawTrack) -> Result<(), NoMemory>
        ensures { OnOk result (self.new ≡ begins self.old empty track) }
    {
        if self.done.len() >= 64 {
            keep_first(&mut self.over, track.at);
        } else if empty {
            self.done.push(track)?;
        } else {
            self.current = Some(track);
        }
        Ok(())
    }

    fn pass(
        &mut self,
        alloc: Global,
        form: Form,
        name: &[u8],
        attributes: &[Attribute],
        at: u64,
    ) -> Result<(), NoMemory>
        ensures { OnOk result (self.new ≡ passes form self.old name.now attributes.now at) }
    {
        if self.path.is_empty() {
            if name != b"smil".as_slice() {
                keep_first(&mut self.other, at);
            }
            return Ok(());
        }
        if self.path.len() == 4 && name == b"param".as_slice() {
            if let Some(track) = &mut self.current {
                return add_element(alloc, form, attributes, at, track);
            }
        }
        Ok(())
    }

    fn meet(
        &mut self,
        alloc: Global,
        form: Form,
        name: &[u8],
        attributes: &[Attribute],
        empty: bool,
        at: u64,
    ) -> Result<(), NoMemory>
        ensures { OnOk result (self.new ≡ meets form self.old name.now attributes.now empty at (track_kind self.old.path name.now)) }
    {
        match track_kind(&self.path, name) {
            None => self.pass(alloc, form, name, attributes, at),
            Some(kind) => {
                let track = raw_track(alloc, kind, attributes, at)?;
                self.begin(empty, track)
            }
        }
    }

    fn start(
        &mut self,
        alloc: Global,
        form: Form,
        name: Bytes,
        attributes: &[Attribute],
        empty: bool,
        at: u64,
    ) -> Result<(), NoMemory>
        ensures { OnOk result (self.new ≡ begins_element form self.old name attributes.now empty at) }
    {
        self.meet(alloc, form, name.as_slice(), attributes, empty, at)?;
        if !empty {
            self.path.push(name)?;
        }
        Ok(())
    }

    fn finish(&mut self) -> Result<(), NoMemory>
        ensures { OnOk result (self.new ≡ ends_element self.old (take (length self.old.path - 1) self.old.path)) }
    {
        let _ = self.path.pop();
        if self.path.len() == 3 {
            if let Some(track) = self.current.take() {
                self.done.push(track)?;
            }
        }
        Ok(())
    }

    /// Takes the next tag.
    pub fn step(&mut self, alloc: Global, form: Form, tag: Tag) -> Result<(), NoMemory>
        ensures { OnOk result (self.new ≡ step form self.old tag) }
    {
        match tag {
            Tag::Start {
                name,
                attributes,
                empty,
                at,
            } => self.start(alloc, form, name, attributes.as_slice(), empty, at),
            Tag::Finish { .. } => self.finish(),
            _ => Ok(()),
        }
    }
}
