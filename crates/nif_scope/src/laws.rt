//! Laws of what is kept, over the definitions alone.
ghost use Rattle.std.specs.Prelude.{◌≡◌, ◌∷◌, ◌++◌, [], Bool, List, length};
ghost use Rattle.std.specs.declared.option.Option.{Option};
ghost use Rattle.nif_base.specs.Node as node;
ghost use Rattle.nif_base.specs.Node.{Node, Members};
ghost use Rattle.nif_schema.specs.Declaration.{Field};
ghost use Rattle.nif_schema.specs.Schema.{line};
ghost use Rattle.nif_layout.specs.Earlier.{behind};
ghost use Rattle.nif_scope.specs.declared.settings.Setting.{Setting};
ghost use Rattle.nif_scope.specs.declared.entries.Entry.{Entry};
ghost use Rattle.nif_scope.specs.declared.entries.Entry.TheVariants as entry;
ghost use Rattle.nif_scope.specs.Told.{told, member_told};
ghost use Rattle.nif_scope.specs.Scope.{Tells, asks, earlier};
ghost use Rattle.nif_scope.specs.Keeping.{without_items, AreFor, added, got_told, IsSingle};

/// Of no members nothing is kept.
pub fn tells_none()
    ensures { (at : Setting) → Tells at [] node.End }
{}

/// What is kept grows by what is kept of the next member.
pub fn tells_more()
    ensures { (at : Setting) (entries : List Entry) (members : Members) (before : List Field) (f : Field)
        (after : List Field) (got : Option Node)
        → line at.schema.now at.number ≡ before ++ f ∷ after → AreFor before members → Tells at entries members
        → Tells at (entries ++ got_told (asks at.schema.now at.number f) got) (added members got) }
{}

/// The earlier fields grow by the next one.
pub fn earlier_more()
    ensures { (at : Setting) (members : Members) (before : List Field) (f : Field) (after : List Field)
        (got : Option Node)
        → line at.schema.now at.number ≡ before ++ f ∷ after → AreFor before members
        → earlier at (added members got) ≡ behind f got (earlier at members) }
{}

/// With the next member there is one for each field up to its own.
pub fn for_more()
    ensures { (before : List Field) (f : Field) (members : Members) (got : Option Node) → AreFor before members
        → AreFor (before ++ f ∷ []) (added members got) }
{}

/// Of a member that isn't an array the same is kept, whether its items are asked for or not.
pub fn single_told()
    ensures { (asked : Bool) (at : Node) → IsSingle at → member_told asked at ≡ told at }
{}

/// What is kept of a group is what was kept of its members, without the items of arrays.
pub fn group_told()
    ensures { (at : Setting) (entries : List Entry) (members : Members) → AreFor (line at.schema.now at.number) members
        → Tells at entries members
        → entry.Group (length (without_items 0 entries)) ∷ without_items 0 entries ≡ told (node.Group members) }
{}
