//! The walk over the tags of a manifest.
ghost use Rattle.std.specs.Prelude.{◌≡◌, ◌-◌, length, take, IfOk, OnOk, Some, None};
ghost use Rattle.sm_tag.specs.Elements.{attribute_of};
ghost use Rattle.sm_manin.specs.ManifestWalk.{root_of, stream_of, level_of, time_of, is_in_root, is_in_stream, with_child};

use crate::raw::{RawLevel, RawLevels, RawRoot, RawStream, RawTime, RawTimes};
use sm_model::{Attribute, Bytes, NoMemory, Tag, keep_first};
use sm_tag::attribute_of;
use std::alloc::Global;
use std::marker::Model;

/// What was met so far.
#[derive(Drop)]
pub struct Walk {
    path: Vec<Bytes>,
    root: Option<RawRoot>,
    other: Option<u64>,
    protection: Option<u64>,
    done: Vec<RawStream>,
    current: Option<RawStream>,
}

impl Model for Walk {
    ghost use Rattle.sm_manin.specs.ManifestWalk.{Walk as Met};

    ghost Value = { Met };

    ghost view = { λ w. record { path = w.path.items; root = w.root; other = w.other; protection = w.protection; done = w.done.items; current = w.current } };
}

fn copied(alloc: Global, name: &[u8], attributes: &[Attribute]) -> Result<Option<Bytes>, NoMemory>
    ensures { IfOk result (λ copy. copy ≡ attribute_of name.now attributes.now) }
{
    match attribute_of(name, attributes) {
        None => Ok(None),
        Some(text) => Ok(Some(Bytes::from_slice(alloc, text)?)),
    }
}

fn root_of(alloc: Global, attributes: &[Attribute], at: u64) -> Result<RawRoot, NoMemory>
    ensures { IfOk result (λ r. r ≡ root_of attributes.now at) }
{
    Ok(RawRoot {
        at,
        major: copied(alloc, b"MajorVersion", attributes)?,
        look: copied(alloc, b"LookAheadFragmentCount", attributes)?,
        lookahead: copied(alloc, b"LookaheadCount", attributes)?,
        timescale: copied(alloc, b"TimeScale", attributes)?,
    })
}

fn stream_of(alloc: Global, attributes: &[Attribute], at: u64) -> Result<RawStream, NoMemory>
    ensures { IfOk result (λ s. s ≡ stream_of attributes.now at) }
{
    Ok(RawStream {
        at,
        kind_text: copied(alloc, b"Type", attributes)?,
        url: copied(alloc, b"Url", attributes)?,
        name: copied(alloc, b"Name", attributes)?,
        timescale: copied(alloc, b"TimeScale", attributes)?,
        levels: RawLevels::new(alloc),
        times: RawTimes::new(alloc),
    })
}

fn level_of(alloc: Global, attributes: &[Attribute], at: u64) -> Result<RawLevel, NoMemory>
    ensures { IfOk result (λ l. l ≡ level_of attributes.now at) }
{
    Ok(RawLevel {
        at,
        index: copied(alloc, b"Index", attributes)?,
        bitrate: copied(alloc, b"Bitrate", attributes)?,
    })
}

fn time_of(alloc: Global, attributes: &[Attribute], at: u64) -> Result<RawTime, NoMemory>
    ensures { IfOk result (λ t. t ≡ time_of attributes.now at) }
{
    Ok(RawTime {
        at,
        t: copied(alloc, b"t", attributes)?,
        d: copied(alloc, b"d", attributes)?,
        r: copied(alloc, b"r", attributes)?,
    })
}

fn is_in_root(path: &[Bytes]) -> bool
    ensures { result ≡ is_in_root path.now }
{
    match path {
        [a] => a.as_slice() == b"SmoothStreamingMedia".as_slice(),
        _ => false,
    }
}

fn is_in_stream(path: &[Bytes]) -> bool
    ensures { result ≡ is_in_stream path.now }
{
    match path {
        [a, b] => {
            a.as_slice() == b"SmoothStreamingMedia".as_slice()
                && b.as_slice() == b"StreamIndex".as_slice()
        }
        _ => false,
    }
}

fn add_child(
    alloc: Global,
    name: &[u8],
    attributes: &[Attribute],
    at: u64,
    stream: &mut RawStream,
) -> Result<(), NoMemory>
    ensures { OnOk result (Some stream.new ≡ with_child name.now attributes.now at (Some stream.old)) }
{
    if name == b"QualityLevel".as_slice() {
        return stream.levels.push(level_of(alloc, attributes, at)?);
    }
    if name == b"c".as_slice() {
        return stream.times.push(time_of(alloc, attributes, at)?);
    }
    Ok(())
}

impl Walk {
    ghost use Rattle.sm_manin.specs.ManifestWalk.{none_met, step, begins, meets, starts, finishes};

    /// Nothing was met yet.
    pub fn new(alloc: Global) -> Walk
        ensures { result ≡ none_met }
    {
        Walk {
            path: Vec::new(alloc),
            root: None,
            other: None,
            protection: None,
            done: Vec::new(alloc),
            current: None,
        }
    }

    /// The outermost element.
    pub fn root(&self) -> &Option<RawRoot>
        ensures { result.now ≡ self.now.root }
    {
        &self.root
    }

    /// The streams that have ended.
    pub fn done(&self) -> &[RawStream]
        ensures { result.now ≡ self.now.done }
    {
        &self.done
    }

    /// The one that hasn't.
    pub fn current(&self) -> &Option<RawStream>
        ensures { result.now ≡ self.now.current }
    {
        &self.current
    }

    /// The place of an outermost element that isn't SmoothStreamingMedia.
    pub fn other(&self) -> Option<u64>
        ensures { result ≡ self.now.other }
    {
        self.other
    }

    /// The place of the first Protection.
    pub fn protection(&self) -> Option<u64>
        ensures { result ≡ self.now.protection }
    {
        self.protection
    }

    fn begin(&mut self, empty: bool, stream: RawStream) -> Result<(), NoMemory>
        ensures { OnOk result (self.new ≡ begins self.old empty stream) }
    {
        if empty {
            self.done.push(stream)?;
        } else {
            self.current = Some(stream);
        }
        Ok(())
    }

    fn meet(
        &mut self,
        alloc: Global,
        name: &[u8],
        attributes: &[Attribute],
        empty: bool,
        at: u64,
    ) -> Result<(), NoMemory>
        ensures { OnOk result (self.new ≡ meets self.old name.now attributes.now empty at) }
    {
        if self.path.is_empty() {
            if name == b"SmoothStreamingMedia".as_slice() {
                self.root = Some(root_of(alloc, attributes, at)?);
            } else {
                self.other = Some(at);
            }
            return Ok(());
        }
        if is_in_root(&self.path) && name == b"StreamIndex".as_slice() {
            let stream = stream_of(alloc, attributes, at)?;
            return self.begin(empty, stream);
        }
        if is_in_stream(&self.path) {
            if let Some(stream) = &mut self.current {
                return add_child(alloc, name, attributes, at, stream);
            }
        }
        Ok(())
    }

    fn start(
        &mut self,
        alloc: Global,
        name: Bytes,
        attributes: &[Attribute],
        empty: bool,
        at: u64,
    ) -> Result<(), NoMemory>
        ensures { OnOk result (self.new ≡ starts self.old name attributes.now empty at) }
    {
        self.meet(alloc, name.as_slice(), attributes, empty, at)?;
        if name.as_slice() == b"Protection".as_slice() {
            keep_first(&mut self.protection, at);
        }
        if !empty {
            self.path.push(name)?;
        }
        Ok(())
    }

    fn finish(&mut self) -> Result<(), NoMemory>
        ensures { OnOk result (self.new ≡ finishes self.old (take (length self.old.path - 1) self.old.path)) }
    {
        let _ = self.path.pop();
        if self.path.len() == 1 {
            if let Some(stream) = self.current.take() {
                self.done.push(stream)?;
            }
        }
        Ok(())
    }

    /// Takes the next tag.
    pub fn step(&mut self, alloc: Global, tag: Tag) -> Result<(), NoMemory>
        ensures { OnOk result (self.new ≡ step self.old tag) }
    {
        match tag {
            Tag::Start {
                name,
                attributes,
                empty,
                at,
            } => self.start(alloc, name, attributes.as_slice(), empty, at),
            Tag::Finish { .. } => self.finish(),
            _ => Ok(()),
        }
    }
}
