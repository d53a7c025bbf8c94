//! What the members of a header say of its file, as they are read, and why one is refused.
ghost use Rattle.std.specs.Prelude.{◌≡◌, ◌<◌, ◌+◌, ◌^◌, ◌∷◌, ◌||◌, ◌&&◌, ◌==◌, [], ℕ, false, List, true, length, not, nat_eq, nat_lt, codes, bytes_eq, is_some, is_none, if◌then◌else◌, MatchResult, Some, None};
ghost use Rattle.std.specs.Option.{option_map, option_or};
ghost use Rattle.nif_base.specs.Node as node;
ghost use Rattle.nif_base.specs.Node.{Node};
ghost use Rattle.nif_schema.specs.Declaration.{Field};
ghost use Rattle.nif_schema.specs.Schema.{Schema};
ghost use Rattle.nif_layout.specs.Earlier.{Earlier, Env, behind};
ghost use Rattle.nif_layout.specs.PathValue.{number_in};
ghost use Rattle.nif_file.specs.FirstLine.{behind_front, line_version};
ghost use Rattle.nif_file.specs.Head.{header_context, bs_version, version_in, member, inner_number};
ghost use Rattle.nif_base.specs.Limits.{highest_bs, most_blocks, most_types};
ghost use Rattle.nif_file.specs.Checks.{line_fault, member_fault, refuse_where};
ghost use Rattle.nif_file.specs.Heads.{IsHead, IsSmall, context_of};

use crate::faults::FileFault;
use nif_base::Version;
use nif_base::limits::{HIGHEST_BS, HIGHEST_VERSION, LOWEST_VERSION, MOST_BLOCKS, MOST_TYPES};
use nif_schema::{Context, Order};

/// What stands behind a front of bytes, where they have it.
#[tactic(auto, unfolding(crate::specs::FirstLine::behind_front))]
fn behind_front<'a>(front: &[u8], bytes: &'a [u8]) -> Option<&'a [u8]>
    ensures { option_map (λ rest. rest.now) result ≡ behind_front front.now bytes.now }
{
    if bytes.starts_with(front) {
        Some(&bytes[front.len()..])
    } else {
        None
    }
}

/// The text of the version in a line; none where the line has neither form.
fn version_text(line: &[u8]) -> Option<&[u8]>
    ensures { option_map (λ text. text.now) result
        ≡ option_or (behind_front (codes "NetImmerse File Format, Version ") line.now)
        (behind_front (codes "Gamebryo File Format, Version ") line.now) }
{
    match behind_front(b"NetImmerse File Format, Version ".as_slice(), line) {
        Some(text) => Some(text),
        None => behind_front(b"Gamebryo File Format, Version ".as_slice(), line),
    }
}

/// The version of a line; none where the line has neither form.
#[tactic(auto, unfolding(crate::specs::FirstLine::line_version))]
fn line_version(line: &[u8]) -> Option<Version>
    ensures { option_map (λ version. version.number) result ≡ line_version line.now }
{
    match version_text(line) {
        Some(text) => Version::parse(text),
        None => None,
    }
}

/// The version of the first line, or why this line is refused.
pub(crate) fn version_of_line(line: &[u8]) -> Result<Version, FileFault>
    ensures { MatchResult result (λ version. (line_version line.now ≡ Some version.number)
        × (line_fault line.now ≡ None)) (λ fault. line_fault line.now
        ≡ Some (record { fault = fault; known = length line.now + 1 })) }
{
    match line_version(line) {
        Some(version) if LOWEST_VERSION <= version.number && version.number <= HIGHEST_VERSION =>
            Ok(version),
        Some(version) => Err(FileFault::VersionRange {
            number: version.number,
        }),
        None => Err(FileFault::BadLine),
    }
}

/// What the members of a header say that were read. The last present member of a name counts.
#[derive(Debug, Drop, Clone, Copy)]
pub(crate) struct Head {
    /// The version of the line.
    version: Version,
    /// `User Version`.
    user: u32,
    /// `User Version 2`, where it is present.
    second: Option<u32>,
    /// `BS Version` in `BS Header`.
    inner: u32,
    /// The byte order, by `Endian Type`.
    order: Order,
    /// `Num Blocks`.
    pub(crate) blocks: u32,
    /// `Num Strings`.
    pub(crate) strings: u32,
    /// Whether `Block Type Index` is present.
    has_index: bool,
    /// Whether `Num Block Types` is present.
    has_types: bool,
    /// Whether `Block Types` is present.
    has_names: bool,
}

/// Whether a name is the one that is wanted.
pub(crate) fn is_name(wanted: &[u8], name: &[u8]) -> bool
    ensures { result ≡ bytes_eq wanted.now name.now }
{
    wanted == name
}

/// The number behind one more member, which counts where it has the name.
fn latest(before: u32, is_named: bool, number: u64) -> u32
    requires { is_named ≡ true → number < 2 ^ 32 }
    ensures { result ≡ (if is_named then number else before) }
{
    if is_named { number as u32 } else { before }
}

/// The same of a number that may be absent.
fn latest_present(before: Option<u32>, is_named: bool, number: u64) -> Option<u32>
    requires { is_named ≡ true → number < 2 ^ 32 }
    ensures { result ≡ (if is_named then Some number else before) }
{
    if is_named {
        Some(number as u32)
    } else {
        before
    }
}

/// The byte order behind one more member.
fn latest_order(before: Order, is_named: bool, number: u64) -> Order
    ensures { result ≡ (if is_named then (if number == 0 then Order.Big else Order.Little) else before) }
{
    if !is_named {
        return before;
    }
    if number == 0 {
        Order::Big
    } else {
        Order::Little
    }
}

/// Why `Endian Type` is refused, if it is.
fn order_refusal(value: u8) -> Option<FileFault>
    ensures { (E : Env) → result ≡ option_map (λ stop. stop.fault)
        (refuse_where (nat_lt 1 value) (FileFault.EndianValue value) E) }
{
    if value > 1 {
        return Some(FileFault::EndianValue { value });
    }
    None
}

/// Why `Num Blocks` is refused, if it is.
fn blocks_refusal(count: u32) -> Option<FileFault>
    ensures { (E : Env) → result ≡ option_map (λ stop. stop.fault)
        (refuse_where (nat_lt most_blocks count) (FileFault.TooManyBlocks count) E) }
{
    if count > MOST_BLOCKS {
        return Some(FileFault::TooManyBlocks { count });
    }
    None
}

/// Why `Num Block Types` is refused, if it is.
fn types_refusal(count: u32) -> Option<FileFault>
    ensures { (E : Env) → result ≡ option_map (λ stop. stop.fault)
        (refuse_where (nat_lt most_types count) (FileFault.TooManyTypes count) E) }
{
    if count > MOST_TYPES {
        return Some(FileFault::TooManyTypes { count });
    }
    None
}

impl Head {
    /// Behind the line alone.
    pub(crate) fn new(version: Version) -> Head
        ensures { (S : Schema) (f : Field) (line : List ℕ) → f.name ≡ codes "Header String"
            → line_version line ≡ Some version.number → IsHead S (behind f (Some (node.Line line)) []) result }
    {
        Head {
            version,
            user: 0,
            second: None,
            inner: 0,
            order: Order::Little,
            blocks: 0,
            strings: 0,
            has_index: false,
            has_types: false,
            has_names: false,
        }
    }

    /// Adds a member that is present behind those before it, by its name, its number, and the number of its
    /// `BS Version`; a number is 0 where there is none.
    pub(crate) fn add(&mut self, name: &[u8], number: u64, inner: u64)
        requires { IsSmall name.now number inner }
        ensures { (S : Schema) (E : Env) (earlier : Earlier) (f : Field) (at : Node) → IsHead S (earlier ∷ E) self.old
            → f.name ≡ name.now → number ≡ number_in false at
            → (bytes_eq (codes "BS Header") f.name ≡ true → inner ≡ inner_number S (codes "BS Version") f at)
            → IsHead S (behind f (Some at) (earlier ∷ E)) self.new }
    {
        self.user = latest(self.user, is_name(b"User Version".as_slice(), name), number);
        self.second = latest_present(
            self.second,
            is_name(b"User Version 2".as_slice(), name),
            number,
        );
        self.inner = latest(self.inner, is_name(b"BS Header".as_slice(), name), inner);
        self.order = latest_order(self.order, is_name(b"Endian Type".as_slice(), name), number);
        self.blocks = latest(self.blocks, is_name(b"Num Blocks".as_slice(), name), number);
        self.strings = latest(
            self.strings,
            is_name(b"Num Strings".as_slice(), name),
            number,
        );
        self.has_index |= is_name(b"Block Type Index".as_slice(), name);
        self.has_types |= is_name(b"Num Block Types".as_slice(), name);
        self.has_names |= is_name(b"Block Types".as_slice(), name);
    }

    /// The BS version: `User Version 2`, or `BS Version` in `BS Header`.
    fn bs(&self) -> u32
        ensures { (S : Schema) (E : Env) → IsHead S E self.now → result ≡ bs_version S E }
    {
        match self.second {
            Some(number) => number,
            None => self.inner,
        }
    }

    /// What decides how the next member is read.
    pub(crate) fn context(&self) -> Context
        ensures { (S : Schema) (E : Env) → IsHead S E self.now → context_of result 0 0 ≡ header_context S E }
    {
        Context {
            version: self.version,
            user: self.user,
            bs: self.bs(),
            order: self.order,
        }
    }

    /// Why `Version` is refused, if it is.
    fn version_refusal(&self, number: u32) -> Option<FileFault>
        ensures { (S : Schema) (E : Env) → IsHead S E self.now
            → result ≡ option_map (λ stop. stop.fault) (refuse_where (not (nat_eq number (version_in E)))
            (FileFault.VersionDisagrees (version_in E) number) E) }
    {
        if number == self.version.number {
            return None;
        }
        Some(FileFault::VersionDisagrees {
            line: self.version.number,
            field: number,
        })
    }

    /// Why the BS version is refused, if it is.
    fn bs_refusal(&self) -> Option<FileFault>
        ensures { (S : Schema) (E : Env) → IsHead S E self.now
            → result ≡ option_map (λ stop. stop.fault) (refuse_where (nat_lt highest_bs (bs_version S E))
            (FileFault.BsRange (bs_version S E)) E) }
    {
        let value = self.bs();
        if value > HIGHEST_BS {
            return Some(FileFault::BsRange { value });
        }
        None
    }

    /// Why the last member is refused, by its name and number, if it is.
    pub(crate) fn refusal(&self, name: &[u8], number: u64) -> Option<FileFault>
        requires small { (inner : ℕ) × IsSmall name.now number inner }
        ensures { (S : Schema) (E : Env) → IsHead S E self.now
            → result ≡ option_map (λ stop. stop.fault) (member_fault S name.now number E) }
    {
        if name == b"Version".as_slice() {
            return self.version_refusal(number as u32);
        }
        if name == b"Endian Type".as_slice() {
            return order_refusal(number as u8);
        }
        if name == b"Num Blocks".as_slice() {
            return blocks_refusal(number as u32);
        }
        if name == b"Num Block Types".as_slice() {
            return types_refusal(number as u32);
        }
        if name == b"BS Header".as_slice() || name == b"User Version 2".as_slice() {
            return self.bs_refusal();
        }
        None
    }

    /// Whether the list of types is wanted and isn't there.
    pub(crate) fn lacks_types(&self) -> bool
        ensures { (S : Schema) (E : Env) → IsHead S E self.now
            → result ≡ is_some (member (codes "Block Type Index") E)
            && (is_none (member (codes "Num Block Types") E) || is_none (member (codes "Block Types") E)) }
    {
        self.has_index && (!self.has_types || !self.has_names)
    }
}
