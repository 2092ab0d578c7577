// How many words to lend.
ghost use Rattle.std.specs.Prelude.{◌≡◌};
ghost use Rattle.graph_tables.specs.Layout.{table_words};
ghost use Rattle.graph_tables.specs.RunWords.{run_words};
ghost use Rattle.system_tables.specs.Layout.{system_words};
ghost use Rattle.system_state.specs.Layout.{state_words};
ghost use Rattle.c_words.specs.Told.{value_words, queued_words, entry_words, graph_entry_words, places_words, channel_words, message_words, event_words};

#[unsafe(no_mangle)]
pub extern "C" fn njn_graph_words() -> usize
    ensures { result ≡ table_words }
{
    export::sizes::njn_graph_words()
}

#[unsafe(no_mangle)]
pub extern "C" fn njn_run_words() -> usize
    ensures { result ≡ run_words }
{
    export::sizes::njn_run_words()
}

#[unsafe(no_mangle)]
pub extern "C" fn njn_system_words() -> usize
    ensures { result ≡ system_words }
{
    export::sizes::njn_system_words()
}

#[unsafe(no_mangle)]
pub extern "C" fn njn_state_words() -> usize
    ensures { result ≡ state_words }
{
    export::sizes::njn_state_words()
}

#[unsafe(no_mangle)]
pub extern "C" fn njn_event_words() -> usize
    ensures { result ≡ event_words }
{
    export::sizes::njn_event_words()
}

#[unsafe(no_mangle)]
pub extern "C" fn njn_message_words() -> usize
    ensures { result ≡ message_words }
{
    export::sizes::njn_message_words()
}

#[unsafe(no_mangle)]
pub extern "C" fn njn_entry_words() -> usize
    ensures { result ≡ entry_words }
{
    export::sizes::njn_entry_words()
}

#[unsafe(no_mangle)]
pub extern "C" fn njn_graph_entry_words() -> usize
    ensures { result ≡ graph_entry_words }
{
    export::sizes::njn_graph_entry_words()
}

#[unsafe(no_mangle)]
pub extern "C" fn njn_value_words() -> usize
    ensures { result ≡ value_words }
{
    export::sizes::njn_value_words()
}

#[unsafe(no_mangle)]
pub extern "C" fn njn_queued_words() -> usize
    ensures { result ≡ queued_words }
{
    export::sizes::njn_queued_words()
}

#[unsafe(no_mangle)]
pub extern "C" fn njn_places_words() -> usize
    ensures { result ≡ places_words }
{
    export::sizes::njn_places_words()
}

#[unsafe(no_mangle)]
pub extern "C" fn njn_channel_words() -> usize
    ensures { result ≡ channel_words }
{
    export::sizes::njn_channel_words()
}
