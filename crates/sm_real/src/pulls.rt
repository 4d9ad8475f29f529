// The journal of a relay or a standby, told by two ends.

use crate::Trouble;
use crate::journal::Journal;
use crate::pulling::{Came, Pulling};
use crate::talk::Span;
use std::alloc::{AllocError, Global};
use std::sync::{Arc, Mutex};
use std::time::{Clock, Instant};

/// The journal of what is pulled into a store. The site opens it, and both the site and the dial tell in it; copies are of the same one. Nothing
/// is told before it is opened. One thread at a time has it, and nobody waits for it. No clause says what it tells.
#[derive(Drop)]
pub struct Pulls {
    pulling: Arc<Mutex<Option<Pulling>>>,
}

impl Pulls {
    /// One that isn't open.
    pub fn new(alloc: Global) -> Result<Pulls, AllocError> {
        Ok(Pulls {
            pulling: Arc::new(alloc, Mutex::new(None))?,
        })
    }

    /// The same one.
    pub fn copy(&self) -> Result<Pulls, AllocError> {
        Ok(Pulls {
            pulling: Arc::try_clone(&self.pulling)?,
        })
    }

    /// It is told in this one from now on, while the store is opened.
    pub fn open(
        &self,
        alloc: Global,
        journal: Journal,
        store: &str,
        now: Instant,
    ) -> Result<(), AllocError> {
        let store = String::from_str(alloc, store)?;
        if let Some(mut held) = self.pulling.try_lock() {
            *held = Some(Pulling::new(alloc, journal, store, now));
        }
        Ok(())
    }

    /// A file of the store is looked at, while it is opened.
    pub fn note_file(&self) {
        if let Some(mut held) = self.pulling.try_lock()
            && let Some(pulling) = &mut *held
        {
            pulling.note_file();
        }
    }

    /// So many bytes of the store are read there, while it is opened.
    pub fn note_read(&self, at: u64, bytes: u64) {
        if let Some(mut held) = self.pulling.try_lock()
            && let Some(pulling) = &mut *held
        {
            pulling.note_read(at, bytes);
        }
    }

    /// The origin is at this host and this port.
    pub fn turn_to(&self, host: &str, port: u16) {
        if let Some(mut held) = self.pulling.try_lock()
            && let Some(pulling) = &mut *held
        {
            pulling.turn_to(host, port);
        }
    }

    /// This is about to be asked for. It answers with the moment, where anything is told.
    pub fn ask(&self, rt: &impl Clock, request: &[u8]) -> Option<Instant> {
        let mut held = self.pulling.try_lock()?;
        let Some(pulling) = &mut *held else {
            return None;
        };
        let now = Instant::now(rt).ok()?;
        pulling.ask(rt, now, request);
        Some(now)
    }

    /// What was asked for at that moment has ended so.
    pub fn answer(&self, rt: &impl Clock, since: Instant, request: &[u8], came: Came<'_>) {
        if let Some(mut held) = self.pulling.try_lock()
            && let Some(pulling) = &mut *held
            && let Ok(now) = Instant::now(rt)
        {
            pulling.answer(rt, since, now, request, came);
        }
    }

    /// A while is waited.
    pub fn rest(&self, rt: &impl Clock) {
        if let Some(mut held) = self.pulling.try_lock()
            && let Some(pulling) = &mut *held
            && let Ok(now) = Instant::now(rt)
        {
            pulling.rest(rt, now);
        }
    }

    /// A fragment, which stands there, or a header was kept.
    pub fn keep(&self, span: Option<Span>) {
        if let Some(mut held) = self.pulling.try_lock()
            && let Some(pulling) = &mut *held
        {
            pulling.keep(span);
        }
    }

    /// The disk refused something.
    pub fn fault(&self, rt: &impl Clock, trouble: &Trouble) {
        if let Some(mut held) = self.pulling.try_lock()
            && let Some(pulling) = &mut *held
            && let Ok(now) = Instant::now(rt)
        {
            pulling.fault(rt, now, trouble);
        }
    }

    /// Nothing more is pulled.
    pub fn end(&self, rt: &impl Clock) {
        if let Some(mut held) = self.pulling.try_lock()
            && let Some(pulling) = &mut *held
            && let Ok(now) = Instant::now(rt)
        {
            pulling.end(rt, now);
        }
    }
}
