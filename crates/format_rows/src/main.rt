//! Makes the call of each row in the files of `data/`, and prints how what it gives differs from what it has to give.
//!
//! A last line says how many rows there are. `sm_rows` says how a row is written.
#![tactic(auto)]

mod boxes;
mod catalogs;
mod connections;
mod fragments;
mod headers;
mod logs;
mod manifests;
mod messages;
mod model;
mod policies;
mod pushes;
mod records;
mod tags;
mod told;

use anyhow::{Result, bail};
use sm_rows::{Caller, Case, run_pages};
use std::alloc::Global;

// In the order in which they are read: names and blocks of one are known in those behind it.
const PAGES: [&str; 14] = [
    "fixtures.txt",
    "model.txt",
    "boxes.txt",
    "fragments.txt",
    "headers.txt",
    "pushes.txt",
    "tags.txt",
    "manifests.txt",
    "catalogs.txt",
    "logs.txt",
    "messages.txt",
    "connections.txt",
    "records.txt",
    "policies.txt",
];

struct Rows;

impl Caller for Rows {
    fn answer(alloc: Global, case: &Case<'_>) -> Result<String> {
        let call = case.call();
        let name = match call.split_once(' ') {
            Some((name, _)) => name,
            None => call,
        };
        match name {
            "sm_model" => model::answer(alloc, case),
            "sm_box" => boxes::answer(alloc, case),
            "sm_traf" | "sm_moof" => fragments::answer(alloc, case),
            "sm_smil" | "sm_moov" => headers::answer(alloc, case),
            "sm_push" => pushes::answer(alloc, case),
            "sm_tag" => tags::answer(alloc, case),
            "sm_manin" | "sm_manout" => manifests::answer(alloc, case),
            "sm_catalog" => catalogs::answer(alloc, case),
            "sm_log" => logs::answer(alloc, case),
            "sm_addr" | "sm_head" | "sm_fetch" => messages::answer(alloc, case),
            "sm_body" | "sm_conn" | "sm_wire" => connections::answer(alloc, case),
            "sm_record" => records::answer(alloc, case),
            "sm_policy" => policies::answer(alloc, case),
            _ => bail!("no such call"),
        }
    }
}

fn main(rt: HostRuntime) -> Result<()> {
    run_pages::<Rows>(&rt, &PAGES)
}
