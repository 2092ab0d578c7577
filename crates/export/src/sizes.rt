// How many words to lend.
ghost use Rattle.std.specs.Prelude.{◌≡◌};
ghost use Rattle.graph_tables.specs.Layout.{table_words};
ghost use Rattle.graph_tables.specs.RunWords.{run_words};
ghost use Rattle.system_tables.specs.Layout.{system_words};
ghost use Rattle.system_state.specs.Layout.{state_words};
ghost use Rattle.c_words.specs.Told.{value_words, queued_words, entry_words, graph_entry_words, places_words, channel_words, message_words, event_words};

use c_words::inner::given;
use graph_tables::runs;

pub fn njn_graph_words() -> usize
    ensures { result ≡ table_words }
{
    graph_tables::sizes::WORDS
}

pub fn njn_run_words() -> usize
    ensures { result ≡ run_words }
{
    runs::WORDS
}

pub fn njn_system_words() -> usize
    ensures { result ≡ system_words }
{
    system_tables::sizes::WORDS
}

pub fn njn_state_words() -> usize
    ensures { result ≡ state_words }
{
    system_state::layout::WORDS
}

pub fn njn_event_words() -> usize
    ensures { result ≡ event_words }
{
    given::EVENT
}

pub fn njn_message_words() -> usize
    ensures { result ≡ message_words }
{
    given::MESSAGE
}

pub fn njn_entry_words() -> usize
    ensures { result ≡ entry_words }
{
    given::ENTRY
}

pub fn njn_graph_entry_words() -> usize
    ensures { result ≡ graph_entry_words }
{
    given::GRAPH_ENTRY
}

pub fn njn_value_words() -> usize
    ensures { result ≡ value_words }
{
    given::VALUE
}

pub fn njn_queued_words() -> usize
    ensures { result ≡ queued_words }
{
    given::QUEUED
}

pub fn njn_places_words() -> usize
    ensures { result ≡ places_words }
{
    given::PLACES
}

pub fn njn_channel_words() -> usize
    ensures { result ≡ channel_words }
{
    given::CHANNEL
}
