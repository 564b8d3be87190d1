// Document 01's probe points that are not starred, and the starts, findings, rows and lookups that it refuses.
#![tactic(auto)]

mod controls;
mod found;
mod lent;
mod lines;
mod starts;

fn main(rt: HostRuntime) {
    controls::controls(&rt);
    found::cells(&rt);
    found::pm_rows(&rt);
    found::px_rows(&rt);
    starts::starts(&rt);
}
