//! Laws of files, over the definitions alone.
ghost use Rattle.nif_schema.specs.Schema.{Schema, IsSchema};
ghost use Rattle.nif_schema.specs.Roles.{Roles};
ghost use Rattle.nif_file.specs.FileLaws.{AimedWithin, IndexedAlike, FileOrFault, KnownWithin, NumberedAgain, OneFile, OnePlace, SizeIsLength, TypesDeclared};

/// By a schema that keeps the nine rules of the header, bytes spell one file, or they have one first fault, known at
/// one place that lies within them, and not both.
pub fn one_file_or_fault()
    ensures outcome { (S : Schema) → IsSchema S → Roles S → FileOrFault S }
    ensures file { (S : Schema) → IsSchema S → Roles S → OneFile S }
    ensures place { (S : Schema) → IsSchema S → Roles S → OnePlace S }
    ensures within { (S : Schema) → IsSchema S → Roles S → KnownWithin S }
{}

/// The size of a file, which is counted from its nodes and names alone, is the number of its bytes.
pub fn size_is_length()
    ensures { (S : Schema) → SizeIsLength S }
{}

/// The graph of a file is written as the file, whatever it says of itself; its targets are names of its blocks; it is
/// indexed where its header has an index of types; and the schema declares the types of its blocks, and those that its
/// references want.
pub fn graph_of_file()
    ensures again { (S : Schema) → IsSchema S → Roles S → NumberedAgain S }
    ensures aimed { (S : Schema) → AimedWithin S }
    ensures indexed { (S : Schema) → IndexedAlike S }
    ensures declared { (S : Schema) → TypesDeclared S }
{}
