// How the runs of a sweep end (02, No. 4). specs/Sweep.antt says which run ends how.
#[derive(Clone, Copy)]
pub enum Ending {
    Alarmed,
    Same,
    Other,
    Unfinished,
}

// How many runs ended with an alarm, finished with the trace of the unstruck run, finished with another, and did not finish.
#[derive(Clone, Copy, Default)]
pub struct Counts {
    pub alarms: u32,
    pub same: u32,
    pub other: u32,
    pub unfinished: u32,
}
