//! Laws on the effect of an edit, its outcome and the length after it.

ghost use Rattle.std.specs.Prelude.{◌≡◌, ◌↔◌, true};
ghost use Rattle.geometry_model.specs.Numbers.{Numbers};
ghost use Rattle.eos_ops.specs.declared.edit.Edit.{Edit};
ghost use Rattle.eos_ops.specs.declared.outcome.Outcome.TheVariants.{Done};
ghost use Rattle.eos_ops.specs.declared.plain.Plain.{Plain};
ghost use Rattle.eos_ops.specs.Edits.{outcome_in, edited};
ghost use Rattle.moment_model.specs.Edit.{accepts, edited_length, effect_on, is_effective};
ghost use Rattle.moment_model.specs.Version.{Version, version_bytes};
ghost use Rattle.effect_laws.specs.Lengths.{plain_length};

/// Whether the effect of an edit on a version is a refusal goes by the version's length alone.
pub fn an_effect_goes_by_length()
    ensures { (n : Numbers) (edit : Edit) (version : Version) →
        is_effective (effect_on n edit version) ≡ accepts (version_bytes version) edit }
{}

/// Where a version has the length of a plain object, or both are absent, the effect of an edit is
/// no refusal exactly where the edit of the plain object is done.
pub fn an_effect_is_the_outcome()
    ensures accepted { (edit : Edit) (object : Plain) →
        (accepts (plain_length object) edit ≡ true) ↔ (outcome_in edit object ≡ Done) }
    ensures effective { (n : Numbers) (edit : Edit) (version : Version) (object : Plain) →
        version_bytes version ≡ plain_length object →
        (is_effective (effect_on n edit version) ≡ true) ↔ (outcome_in edit object ≡ Done) }
{}

/// The length of a plain object after an edit follows from the length before it.
pub fn an_edited_object_has_its_length()
    ensures { (edit : Edit) (object : Plain) →
        plain_length (edited edit object) ≡ edited_length edit (plain_length object) }
{}
