//! Theorems on JSON lines.

ghost use Rattle.serde_json.specs.Data.{Data};
ghost use Rattle.tw_json_output.specs.Lines.{IsOneLine};
ghost use Rattle.tw_json_output.specs.Run.{json_line};

/// Proves that the line of each JSON value has one line feed, its last byte.
pub fn one_line()
    ensures { (value : Data) → IsOneLine (json_line value) }
{}
