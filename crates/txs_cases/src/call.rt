/// The calls of single layers.
#[derive(Clone, Copy)]
pub enum Call {
    Value,
    Measure,
    Default,
    Extent,
    Table,
    Tokens,
    Tree,
    Eval,
    Query,
    File,
    Model,
    Members,
}

/// Each call, with the number of its quoted words.
const CALLS: [(&str, Call, usize); 12] = [
    ("value", Call::Value, 2),
    ("measure", Call::Measure, 2),
    ("default", Call::Default, 1),
    ("extent", Call::Extent, 1),
    ("table", Call::Table, 0),
    ("tokens", Call::Tokens, 0),
    ("tree", Call::Tree, 1),
    ("eval", Call::Eval, 1),
    ("query", Call::Query, 3),
    // `file` alone: with a quoted word it is a file of a whole run.
    ("file", Call::File, 0),
    ("model", Call::Model, 0),
    ("members", Call::Members, 0),
];

/// The call that a line begins with, and the number of its quoted words.
pub fn call_of(head: &str) -> Option<(Call, usize)> {
    for (name, call, words) in CALLS {
        if name == head {
            return Some((call, words));
        }
    }
    None
}
