// Where the processes of a run are: their places, and how many there are. (Fixed memory: an array with its count, and no heap.)
use graph_tables::sizes;

#[derive(Clone, Copy)]
pub struct Places {
    pub places: [u32; sizes::PROCESSES],
    pub count: usize,
}
