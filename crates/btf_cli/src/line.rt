//! The command line: the words after the program's name.

ghost use Rattle.std.specs.Prelude.{◌≡◌, ◌≢◌, IfSome, IfNone};
ghost use Rattle.btf_model.specs.declared.endianness.Endianness.{Endianness};
ghost use Rattle.btf_cli.specs.Line.{order_word};

use crate::number::read_id;
use crate::request::Request;
use btf_plain::Endianness;

/// A query of an unchanged table.
#[derive(Clone, Copy)]
pub enum Query {
    /// The table written again.
    Copy,
    /// A line for each type.
    Types,
    /// The size of the type of an id.
    Size(u32),
    /// Whether the types of two ids are compatible.
    Compat(u32, u32),
}

/// A command on a table.
#[derive(Clone, Copy)]
pub enum Command<'a> {
    /// The answer to a query.
    Ask(Query),
    /// The table rewritten for a kernel.
    Rewrite(Request<'a>),
}

/// A valid command line.
#[derive(Clone, Copy)]
pub struct Line<'a> {
    pub endianness: Endianness,
    pub command: Command<'a>,
}

/// The byte order that a word names.
fn read_order(word: &str) -> Option<Endianness>
    ensures some { IfSome result (λ endianness. word.now ≡ order_word endianness) }
    ensures none { IfNone result ((order : Endianness) → word.now ≢ order_word order) }
{
    match word {
        "little" => Some(Endianness::Little),
        "big" => Some(Endianness::Big),
        _ => None,
    }
}

impl Query {
    ghost use Rattle.std.specs.Prelude.{IfSome, IfNone};
    ghost use Rattle.btf_cli.specs.Line.{AsksQuery};
    ghost use Rattle.btf_cli.specs.Setting.{word_texts};
    ghost use Rattle.btf_cli.specs.declared.line.Query.{Query};

    /// The query in the words after the byte order.
    fn read(words: &[String]) -> Option<Query>
        ensures some { IfSome result (AsksQuery (word_texts words.now)) }
        ensures none { IfNone result
            ((query : Query) → AsksQuery (word_texts words.now) query → ⊥) }
    {
        match words {
            [word] => match word.as_str() {
                "copy" => Some(Query::Copy),
                "types" => Some(Query::Types),
                _ => None,
            },
            [word, id] => match word.as_str() {
                "size" => Some(Query::Size(read_id(id.as_str())?)),
                _ => None,
            },
            [word, id, other] => match word.as_str() {
                "compat" => {
                    let id = read_id(id.as_str())?;
                    Some(Query::Compat(id, read_id(other.as_str())?))
                }
                _ => None,
            },
            _ => None,
        }
    }
}

impl<'a> Command<'a> {
    ghost use Rattle.std.specs.Prelude.{IfSome, IfNone};
    ghost use Rattle.btf_cli.specs.Line.{AsksCommand};
    ghost use Rattle.btf_cli.specs.Setting.{word_texts};
    ghost use Rattle.btf_cli.specs.declared.line.Command.{Command};

    /// The command in the words after the byte order.
    fn read(words: &'a [String]) -> Option<Command<'a>>
        ensures some { IfSome result (AsksCommand (word_texts words.now)) }
        ensures none { IfNone result
            ((command : Command) → AsksCommand (word_texts words.now) command
            → ⊥) }
    {
        let (word, rest) = words.split_first()?;
        if word.as_str() == "rewrite" {
            return Some(Command::Rewrite(Request::read(rest)?));
        }
        Some(Command::Ask(Query::read(words)?))
    }
}

impl<'a> Line<'a> {
    ghost use Rattle.std.specs.Prelude.{IfSome, IfNone};
    ghost use Rattle.btf_cli.specs.Line.{Asks};
    ghost use Rattle.btf_cli.specs.declared.line.Line.{Line};

    /// The command line of these words, or None if they are no valid one.
    pub fn read(words: &'a [String]) -> Option<Line<'a>>
        ensures some { IfSome result (Asks words.now) }
        ensures none { IfNone result ((line : Line) → Asks words.now line → ⊥) }
    {
        let (order, rest) = words.split_first()?;
        let endianness = read_order(order.as_str())?;
        let command = Command::read(rest)?;
        Some(Line {
            endianness,
            command,
        })
    }
}
