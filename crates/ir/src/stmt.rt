// The kinds of statements.
ghost use Rattle.ir.specs.Kinds.{StmtDecodes};

use super::UnknownKind;

#[derive(Clone, Copy, Debug, PartialEq, Eq)]
pub enum StmtKind {
    Expr = 1,
    Block = 2,
    While = 3,
    Branches = 4,
    Switch = 5,
    InitArray = 6,
    InitDefault = 7,
    Break = 8,
    Continue = 9,
    Return = 10,
}

// Written out, as for `Tag`.
impl TryFrom<u8> for StmtKind {
    type Error = UnknownKind;

    ghost try_from_gives = { StmtDecodes };

    fn try_from(code: u8) -> Result<Self, UnknownKind> {
        match code {
            1 => Ok(StmtKind::Expr),
            2 => Ok(StmtKind::Block),
            3 => Ok(StmtKind::While),
            4 => Ok(StmtKind::Branches),
            5 => Ok(StmtKind::Switch),
            6 => Ok(StmtKind::InitArray),
            7 => Ok(StmtKind::InitDefault),
            8 => Ok(StmtKind::Break),
            9 => Ok(StmtKind::Continue),
            10 => Ok(StmtKind::Return),
            _ => Err(UnknownKind(code)),
        }
    }
}
