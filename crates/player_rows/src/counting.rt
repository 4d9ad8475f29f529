//! A wire that counts what it sends.

use sm_site::{Event, Failed, Link, LinkError};
use std::sync::Arc;
use std::sync::atomic::{AtomicU64, Ordering};

/// A link that counts its sends of one reply, whole and nothing else, for others to see.
#[derive(Drop)]
pub struct CountingLink<L: Link + Drop> {
    pub link: L,
    pub reply: Vec<u8>,
    pub count: Arc<AtomicU64>,
}

impl<L: Link + Drop> CountingLink<L> {
    // These went out, in two parts.
    fn note(&self, head: &[u8], tail: &[u8]) {
        if self.reply.as_slice().strip_prefix(head) == Some(tail) {
            self.count.fetch_add(1, Ordering::SeqCst);
        }
    }
}

impl<L: Link + Drop> Link for CountingLink<L> {
    ghost seen = { record {
      view = λ c. L.seen.view c.link;
      may_leave = λ c i. L.seen.may_leave c.link i;
      left_at = λ c t i. L.seen.left_at c.link t i;
    } };

    ghost numbers = { λ c. L.numbers c.link };

    ghost no_entry_later = { λ c. L.no_entry_later c.link };

    fn next(&mut self) -> Result<Event, LinkError> {
        self.link.next()
    }

    fn send(&mut self, conn: u64, bytes: &[u8]) -> Result<(), Failed> {
        let sent = self.link.send(conn, bytes);
        if sent.is_ok() {
            self.note(bytes, &[]);
        }
        sent
    }

    fn send_both(&mut self, conn: u64, head: &[u8], tail: &[u8]) -> Result<(), Failed> {
        let sent = self.link.send_both(conn, head, tail);
        if sent.is_ok() {
            self.note(head, tail);
        }
        sent
    }

    fn close(&mut self, conn: u64) {
        self.link.close(conn);
    }
}
