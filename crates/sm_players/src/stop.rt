//! A flag that threads share.

use sm_model::NoMemory;
use std::alloc::Global;
use std::sync::Arc;
use std::sync::atomic::{AtomicBool, Ordering};

/// A flag that is raised once and then stays so: it asks wires to end. Copies share one flag. No clause says what another thread did to it.
#[derive(Drop)]
pub struct Stop {
    flag: Arc<AtomicBool>,
}

impl Stop {
    /// A flag of its own, which isn't raised.
    pub fn new(alloc: Global) -> Result<Stop, NoMemory> {
        match Arc::new(alloc, AtomicBool::new(false)) {
            Ok(flag) => Ok(Stop { flag }),
            Err(_) => Err(NoMemory),
        }
    }

    /// The same flag.
    pub fn copy(&self) -> Result<Stop, NoMemory> {
        Ok(Stop {
            flag: Arc::try_clone(&self.flag)?,
        })
    }

    /// The flag itself, for a wire that is to end once it is raised.
    pub fn flag(&self) -> Result<Arc<AtomicBool>, NoMemory> {
        Ok(Arc::try_clone(&self.flag)?)
    }

    /// Raises it.
    pub fn ask(&self) {
        self.flag.store(true, Ordering::SeqCst);
    }

    /// Whether it is raised.
    pub fn asked(&self) -> bool {
        self.flag.load(Ordering::SeqCst)
    }
}
