use txs_terms::Term;
use txs_values::Text;

/// What a file states: one model over two channels of type Int, and one connection.
#[derive(Drop)]
pub struct Model {
    /// The name of the input channel, whose number is 0.
    pub input: Text,
    /// The name of the output channel, whose number is 1.
    pub output: Text,
    /// The name of the model.
    pub name: Text,
    /// The name of the connection.
    pub link: Text,
    pub host: Text,
    pub port: u16,
    /// The model's behaviour.
    pub start: Term,
}
