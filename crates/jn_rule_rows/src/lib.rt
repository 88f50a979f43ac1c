//! Worked rows of the rules of refusal: small programs with their verdicts, and single forms with what is refused of them.
#![tactic(auto)]

ghost use Rattle.jn_rule_rows.specs.FamilyRows.{FamilyRows};
ghost use Rattle.jn_rule_rows.specs.ManyRows.{ManyRows};
ghost use Rattle.jn_rule_rows.specs.SharingRows.{SharingRows};
ghost use Rattle.jn_rule_rows.specs.MoreRows.{MoreMemberRows, SourceRows};
ghost use Rattle.jn_rule_rows.specs.Rows.{FormsRefused, MainRows, MemberRows, NameRows, TableRows, TypesRefused};
ghost use Rattle.jn_rule_rows.specs.WordRows.{WordRows};

use jn_sem_rows::sharing_examples::at_an_heir;

/// Programs of one class with one method: two that are accepted, and one for each of E06, E16, E17, E18 and E24.
pub fn main_rows()
    ensures { MainRows }
{}

/// A local that stands twice, which is E05, and a mask that is no field, which is E27.
pub fn name_rows()
    ensures { NameRows }
{}

/// What is refused of a class table: E06, E07, E08, and E26 of the empty file.
pub fn table_rows()
    ensures { TableRows }
{}

/// What is refused of members: E09.
pub fn member_rows()
    ensures { MemberRows }
{}

/// What is refused of the types of locals: E14, E15, E22.
pub fn type_rows()
    ensures { TypesRefused }
{}

/// What is refused of forms in any program: E12, E19, E20, E23, E25.
pub fn form_rows()
    ensures { FormsRefused }
{}

/// A view change that is refused as E20, with the class that has no counterpart.
pub fn sharing_rows()
    ensures { SharingRows }
{
    at_an_heir();
}

/// What is refused of members: E10 and E11.
pub fn more_member_rows()
    ensures { MoreMemberRows }
{}

/// What is refused of a source's bytes: E02 and E03.
pub fn source_rows()
    ensures { SourceRows }
{}

/// What is refused of families and masks: E12, E19, E21 and E25, each found in a program.
pub fn family_rows()
    ensures { FamilyRows }
{}

/// What is refused of words: E01, and E04 at the ninth declaration in one another.
pub fn word_rows()
    ensures { WordRows }
{}

/// A program with more than 4,096 paths, which is E13.
pub fn many_rows()
    ensures { ManyRows }
{}
