// A run of one graph. Slots past its counts are not looked at, and stay as they were. (Fixed memory: arrays with their counts, and no heap.)
use grammar::values::Slot;
use graph_tables::sizes;

#[derive(Clone, Copy)]
pub struct ProgramGraphRun {
    pub places: [u32; sizes::PROCESSES],
    pub vars: [Slot; sizes::VARIABLES],
    pub times: [u32; sizes::CLOCKS],
    // How many it has of each.
    pub processes: usize,
    pub variables: usize,
    pub clocks: usize,
}
