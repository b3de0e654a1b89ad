// What a flag fact and its flag parts say of the machine.
ghost use Rattle.std.specs.Prelude.{◌↔◌, Some};
ghost use Rattle.abs_state.specs.Fact.{HoldsFact};
ghost use Rattle.abs_state.specs.Seen.{Seen};
ghost use Rattle.abs_state.specs.declared.fact.FlagFact.{FlagFact};
ghost use Rattle.cert_flags.specs.FactParts.{parts_of_fact};
ghost use Rattle.flag_parts.specs.Parts.{AreSeen};

/// A law: a flag fact holds of the machine exactly if its flag parts do.
pub fn flag_fact_is_its_parts()
    ensures { (fact : FlagFact) (m : Seen) → HoldsFact (Some fact) m.regs
        ↔ AreSeen (parts_of_fact fact) m }
{}
