//! Rows that are played again and again: behind each front of what a connection sends, and with each call of a disk or a link failing once.
use crate::stage;
use anyhow::Result;
use sm_rows::Case;
use sm_rows::scripts::{Cut, extend};
use sm_rows::tales::Tale;
use sm_site::{Crashing, Event, MemorySite, Numbers, Script};
use std::alloc::Global;

// Lets the connections come that the lines `sends` say, one behind another.
fn come(alloc: Global, case: &Case<'_>, site: &mut MemorySite) -> Result<()> {
    for line in case.lines() {
        if line.key() == "sends" {
            let bytes = case.words(alloc, line)?.bytes(alloc, 1)?;
            extend(alloc, site, bytes.as_slice(), Cut::Of(65_536))?;
        }
    }
    Ok(())
}

fn none(alloc: Global) -> Numbers {
    Numbers::from_vec(Vec::new(alloc))
}

// A site at which these calls fail.
fn site(alloc: Global, disk: Numbers, link: Numbers) -> MemorySite {
    MemorySite::new(alloc, Script::from_vec(Vec::new(alloc)), disk, link)
}

// A site to which a connection comes that sends these bytes and is closed.
fn cut_off(alloc: Global, front: &[u8]) -> Result<MemorySite> {
    let mut site = site(alloc, none(alloc), none(alloc));
    let number = extend(alloc, &mut site, front, Cut::Of(65_536))?;
    let closed = vec![in alloc; Event::Closed(number)]?;
    site.extend(Script::from_vec(closed))?;
    Ok(site)
}

// Tells from which play on something else is told than before, and that.
fn tell(alloc: Global, play: u64, told: &str, last: &str, tale: &mut Tale) -> Result<()> {
    if told == last {
        return Ok(());
    }
    tale.say(format!(in alloc; "from {play}")?.as_str())?;
    tale.say(told)
}

/// Plays a row once for each front of the bytes of `input`, from nothing to the whole, which comes on a connection of its own that is closed
/// behind it, before those of the row; and tells from how many bytes on what is told.
pub fn play_fronts(alloc: Global, case: &Case<'_>) -> Result<String> {
    let input = case.bytes(alloc, "input")?;
    let mut tale = Tale::new(alloc);
    let mut last = String::new(alloc);
    for count in 0..=input.len() {
        let mut site = cut_off(alloc, input.get(..count).unwrap_or(&[]))?;
        come(alloc, case, &mut site)?;
        let told = stage::play_on(alloc, case, site)?;
        tell(alloc, count as u64, told.as_str(), last.as_str(), &mut tale)?;
        last = told;
    }
    Ok(tale.into_text())
}

/// Plays a row once for each of the numbers from 1 on to the one of `fails-each disk` or `fails-each link`, which is that of the one call of
/// disk or link that fails; and tells from which number on what is told.
pub fn play_faults(alloc: Global, case: &Case<'_>) -> Result<String> {
    let words = case.words_of(alloc, "fails-each")?;
    let is_of_disk = words.text(0)? == "disk";
    let mut tale = Tale::new(alloc);
    let mut last = String::new(alloc);
    for number in 1..=words.number(1)? {
        let one = Numbers::from_vec(vec![in alloc; number]?);
        let mut site = if is_of_disk {
            site(alloc, one, none(alloc))
        } else {
            site(alloc, none(alloc), one)
        };
        come(alloc, case, &mut site)?;
        let told = stage::play_on(alloc, case, site)?;
        tell(alloc, number, told.as_str(), last.as_str(), &mut tale)?;
        last = told;
    }
    Ok(tale.into_text())
}
