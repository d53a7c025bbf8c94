//! The words of a command.
ghost use Rattle.std.specs.Prelude.{◌≡◌};
ghost use Rattle.std.specs.Option.{option_map};
ghost use Rattle.nif_tool.specs.Command.{command_of, schema_named};
ghost use Rattle.nif_tool.specs.Words.{command, schema_name};

/// Where a schema comes from.
#[derive(Debug, Drop, Clone, Copy)]
pub enum SchemaName<'a> {
    /// The text `plain`, which is built in.
    Plain,
    /// The text `scene`, which is built in.
    Scene,
    /// A file.
    Named { file: &'a str },
}

/// A command, with the names in its words.
#[derive(Debug, Drop, Clone, Copy)]
pub enum Words<'a> {
    /// `schema S`
    Schema {
        schema: SchemaName<'a>,
    },
    /// `check S F`
    Check {
        schema: SchemaName<'a>,
        file: &'a str,
    },
    /// `refs S F`
    Refs {
        schema: SchemaName<'a>,
        file: &'a str,
    },
    /// `copy S F OUT`
    Copy {
        schema: SchemaName<'a>,
        file: &'a str,
        copy: &'a str,
    },
}

/// The schema that a word names.
fn read_schema_name(word: &str) -> SchemaName<'_>
    ensures { schema_name result ≡ schema_named word.now }
{
    if word == "plain" {
        SchemaName::Plain
    } else if word == "scene" {
        SchemaName::Scene
    } else {
        SchemaName::Named { file: word }
    }
}

/// The command that the words spell, if they spell one.
pub fn read_words(words: &[String]) -> Option<Words<'_>>
    ensures { option_map command result ≡ command_of words.now }
{
    match words {
        [verb, schema] => {
            if verb.as_str() == "schema" {
                Some(Words::Schema {
                    schema: read_schema_name(schema.as_str()),
                })
            } else {
                None
            }
        }
        [verb, schema, file] => {
            if verb.as_str() == "check" {
                Some(Words::Check {
                    schema: read_schema_name(schema.as_str()),
                    file: file.as_str(),
                })
            } else if verb.as_str() == "refs" {
                Some(Words::Refs {
                    schema: read_schema_name(schema.as_str()),
                    file: file.as_str(),
                })
            } else {
                None
            }
        }
        [verb, schema, file, copy] => {
            if verb.as_str() == "copy" {
                Some(Words::Copy {
                    schema: read_schema_name(schema.as_str()),
                    file: file.as_str(),
                    copy: copy.as_str(),
                })
            } else {
                None
            }
        }
        _ => None,
    }
}
