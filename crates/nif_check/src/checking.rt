//! Checked schemas.
ghost use Rattle.std.specs.Prelude.{◌≡◌, ℕ, ◌<◌, ◌↔◌, codes, length, List, Option, Some, IsTrue, IfOk, IfErr};
ghost use Rattle.nif_schema.specs.Schema.{find};
ghost use Rattle.nif_schema.specs.Reasons.{AreReasons, IsOpen, IsReason};
ghost use Rattle.nif_schema.specs.declared.faults.Closed.{Closed};
ghost use Rattle.nif_schema.specs.Roles.{Roles};
ghost use Rattle.nif_check.specs.Results.{IsFault};

use crate::reasons::reasons_of;
use crate::roots::roots_of;
use nif_schema::{Closed, Schema, SchemaFault};
use nif_uses::generic_structs;
use std::alloc::Global;
use std::marker::Model;

/// A schema that keeps the rules of the header. Contracts see it as its schema.
#[derive(Drop)]
pub struct Checked {
    schema: Schema,
    reasons: Vec<Option<Closed>>,
    header: u32,
    footer: u32,
}

impl Model for Checked {
    ghost use Rattle.std.specs.Prelude.{List};
    ghost use Rattle.std.specs.Coded.{coded_list};
    ghost use Rattle.nif_schema.specs.Declaration.{Declaration};
    ghost use Rattle.nif_schema.specs.Codes.{coded_declaration};

    ghost Value = { List Declaration };

    ghost coded = { coded_list coded_declaration };

    ghost use Rattle.nif_check.specs.Results.{IsChecked};

    ghost view = { λ c. c.schema };

    ghost invariant = { λ c. IsChecked c.schema c.reasons.items c.header c.footer };
}

/// Checks a schema: which of its types are open, and the rules of the header. It answers the schema unchanged, or S6 with
/// the first rule that fails; then the schema is gone.
pub fn check(alloc: Global, schema: Schema) -> Result<Checked, SchemaFault>
    ensures same { IfOk result (λ checked. checked ≡ schema) }
    ensures roles { IfOk result (λ checked. Roles schema) }
    ensures fault { IfErr result (IsFault schema) }
{
    let generic = match generic_structs(alloc, &schema) {
        Ok(generic) => generic,
        Err(_) => return Err(SchemaFault::NoMemory),
    };
    let reasons = match reasons_of(alloc, &schema, &generic) {
        Ok(reasons) => reasons,
        Err(_) => return Err(SchemaFault::NoMemory),
    };
    match roots_of(alloc, &schema, &generic, &reasons) {
        Ok(roots) => Ok(Checked {
            schema,
            reasons,
            header: roots.header,
            footer: roots.footer,
        }),
        Err(fault) => Err(fault),
    }
}

impl Checked {
    /// The schema.
    pub fn schema(&self) -> &Schema
        ensures same { result.now ≡ self.now }
        ensures roles { Roles self.now }
        ensures reasons { (reasons : List (Option Closed)) × AreReasons self.now reasons }
    {
        &self.schema
    }

    /// Whether a type is open: no walk of uses leads from it to a type that has a reason of its own to be closed.
    pub fn is_open(&self, number: u32) -> bool
        requires { number < length self.now }
        ensures { IsTrue result ↔ IsOpen self.now number }
    {
        self.reason(number).is_none()
    }

    /// Why a type is closed; None where it is open.
    pub fn reason(&self, number: u32) -> Option<Closed>
        requires { number < length self.now }
        ensures { IsReason self.now number result }
    {
        self.reasons[number as usize]
    }

    /// The number of Header.
    pub fn header(&self) -> u32
        ensures value { find self.now (codes "Header") ≡ Some result }
        ensures within { result < length self.now }
    {
        self.header
    }

    /// The number of Footer.
    pub fn footer(&self) -> u32
        ensures value { find self.now (codes "Footer") ≡ Some result }
        ensures within { result < length self.now }
    {
        self.footer
    }
}
