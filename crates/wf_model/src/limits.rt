//! How large things may be, for the program. The definitions have the same numbers, which `limits_are_numbers` says.
ghost use Rattle.std.specs.Prelude.{◌≡◌};
ghost use Rattle.wf_model.specs.Limits.{max_units, max_events, max_vars, max_acts, max_states, max_transitions, max_actions, max_outputs, max_nodes, max_depth, max_name, max_text, max_int, max_input, max_tokens, max_open, max_lines, max_report, max_steps, max_fired, max_starts, max_sealed, max_sent, max_client_lines, max_goal, max_clients, max_workers, max_turns, max_body, max_journal};

/// Units of a chart.
pub const MAX_UNITS: usize = 8;

/// Events of a chart, `fault` among them.
pub const MAX_EVENTS: usize = 128;

/// Variables of a chart.
pub const MAX_VARS: usize = 128;

/// Activities of a chart.
pub const MAX_ACTS: usize = 128;

/// States of a chart.
pub const MAX_STATES: usize = 512;

/// Transitions of a chart.
pub const MAX_TRANSITIONS: usize = 1024;

/// Actions of a transition.
pub const MAX_ACTIONS: usize = 16;

/// Outputs of an activity.
pub const MAX_OUTPUTS: usize = 8;

/// Nodes of an expression: each literal, variable, test and operator is one.
pub const MAX_NODES: usize = 64;

/// How deep a state may lie. The root has depth 1.
pub const MAX_DEPTH: usize = 16;

/// Bytes of a name.
pub const MAX_NAME: usize = 32;

/// Characters of a text value.
pub const MAX_TEXT: usize = 64;

/// Bytes of an input: 4 MiB.
pub const MAX_INPUT: usize = 4_194_304;

/// Tokens of a chart's text.
pub const MAX_TOKENS: usize = 1_048_576;

/// Braces, and parentheses of an expression, that are open at once.
pub const MAX_OPEN: usize = 64;

/// The greatest integer of a value.
pub const MAX_INT: u64 = 9_223_372_036_854_775_807;

/// Lines of a script, blank ones among them.
pub const MAX_LINES: usize = 20_000;

/// Bytes of a text that is written: 256 MiB.
pub const MAX_REPORT: usize = 268_435_456;

/// Steps of a run.
pub const MAX_STEPS: u32 = 20_000;

/// Transitions that fire in one step: at most one in each Or state, and some state is basic.
pub const MAX_FIRED: usize = 511;

/// Activities that are started in one step: at most one by each action of a transition that fires.
pub const MAX_STARTS: usize = 8_176;

/// Admissions that one turn seals: the outers that an update brings.
pub const MAX_SEALED: usize = 64;

/// Bytes of all messages of a `play`: 256 MiB.
pub const MAX_SENT: usize = 268_435_456;

/// Client lines of a `host`.
pub const MAX_CLIENT_LINES: usize = 1000;

/// The goal of a `host`, in rounds.
pub const MAX_GOAL: usize = 1000;

/// Clients of a `host`.
pub const MAX_CLIENTS: usize = 16;

/// Workers of a `host`.
pub const MAX_WORKERS: usize = 16;

/// Turns that a unit takes in one round of a `host`.
pub const MAX_TURNS: u32 = 8;

/// Bytes of one body of a journal: 1 MiB.
pub const MAX_BODY: u64 = 1_048_576;

/// Bytes of a journal's file: 512 MiB.
pub const MAX_JOURNAL: u64 = 536_870_912;

/// Each limit of the program is the number that the definitions have.
pub fn limits_are_numbers()
    ensures parts { (MAX_UNITS ≡ max_units) × (MAX_EVENTS ≡ max_events) × (MAX_VARS ≡ max_vars) × (MAX_ACTS ≡ max_acts) }
    ensures tree { (MAX_STATES ≡ max_states) × (MAX_DEPTH ≡ max_depth) × (MAX_TRANSITIONS ≡ max_transitions) }
    ensures inside { (MAX_ACTIONS ≡ max_actions) × (MAX_OUTPUTS ≡ max_outputs) × (MAX_NODES ≡ max_nodes) }
    ensures atoms { (MAX_NAME ≡ max_name) × (MAX_TEXT ≡ max_text) × (MAX_INT ≡ max_int) }
    ensures input { (MAX_INPUT ≡ max_input) × (MAX_TOKENS ≡ max_tokens) × (MAX_OPEN ≡ max_open) × (MAX_LINES ≡ max_lines) }
    ensures run { (MAX_REPORT ≡ max_report) × (MAX_STEPS ≡ max_steps) × (MAX_FIRED ≡ max_fired) × (MAX_STARTS ≡ max_starts) × (MAX_SEALED ≡ max_sealed) }
    ensures play { MAX_SENT ≡ max_sent }
    ensures host { (MAX_CLIENT_LINES ≡ max_client_lines) × (MAX_GOAL ≡ max_goal) × (MAX_CLIENTS ≡ max_clients) × (MAX_WORKERS ≡ max_workers) × (MAX_TURNS ≡ max_turns) }
    ensures journal { (MAX_BODY ≡ max_body) × (MAX_JOURNAL ≡ max_journal) }
{}
