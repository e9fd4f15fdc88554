use std::marker::Model;
use te_board::Board;
use te_script::Core;
use te_terms::Rows;

/// What threads of their own leave: a board, whose history is legal, with the core of each of its callers, where the
/// outcomes that the caller has taken leave it. The history is of the cores' texts, the members of each of its commits can't
/// be split into two parts with no meeting between them, and no caller has taken back more than one event. Board and cores
/// meet the condition of `finish`. This project's own.
#[derive(Drop)]
pub struct House {
    pub board: Board,
    pub cores: Rows<Core>,
}

impl Model for House {
    ghost use Rattle.te_runtime.specs.Households.{Household, IsHousehold};
    ghost use Rattle.te_runtime.specs.HouseholdCode.{household_code};

    ghost Value = { Household };

    ghost coded = { household_code };

    ghost view = { λ h. record { board = h.board; cores = h.cores } };

    ghost invariant = { λ h. IsHousehold h.board h.cores };
}
