// What the building calls ask and write, for callers that know their table.
pub mod channels;
pub mod checks;
pub mod graphs;
pub mod messages;
