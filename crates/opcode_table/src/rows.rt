ghost use Rattle.std.specs.Prelude.{◌≡◌};
ghost use Rattle.opcode_table.specs.Table.{op_with_name, row_of, text_of, class_of, kind_of};

use crate::{Class, Kind, Op, Row};
use std::fmt;

/// A row an operation, in the order of `Op`.
pub(crate) static ROWS: [Row; 110] = [
    Row(Op::Cla, 0o0500, *b"CLA   ", Class::Addressed, Kind::Fixed),
    Row(Op::Cls, 0o0502, *b"CLS   ", Class::Addressed, Kind::Fixed),
    Row(Op::Cal, 0o4500, *b"CAL   ", Class::Addressed, Kind::Logic),
    Row(Op::Ldq, 0o0560, *b"LDQ   ", Class::Addressed, Kind::Fixed),
    Row(Op::Ldi, 0o0441, *b"LDI   ", Class::Addressed, Kind::Logic),
    Row(Op::Stz, 0o0600, *b"STZ   ", Class::Addressed, Kind::Fixed),
    Row(Op::Sto, 0o0601, *b"STO   ", Class::Addressed, Kind::Fixed),
    Row(Op::Slw, 0o0602, *b"SLW   ", Class::Addressed, Kind::Logic),
    Row(Op::Sti, 0o0604, *b"STI   ", Class::Addressed, Kind::Logic),
    Row(Op::Stq, 0o4600, *b"STQ   ", Class::Addressed, Kind::Fixed),
    Row(Op::Slq, 0o4620, *b"SLQ   ", Class::Addressed, Kind::Fixed),
    Row(Op::Sta, 0o0621, *b"STA   ", Class::Addressed, Kind::Fixed),
    Row(Op::Std, 0o0622, *b"STD   ", Class::Addressed, Kind::Fixed),
    Row(Op::Stt, 0o0625, *b"STT   ", Class::Addressed, Kind::Fixed),
    Row(Op::Stl, 0o4625, *b"STL   ", Class::Addressed, Kind::Fixed),
    Row(Op::Stp, 0o0630, *b"STP   ", Class::Addressed, Kind::Fixed),
    Row(Op::Add, 0o0400, *b"ADD   ", Class::Addressed, Kind::Fixed),
    Row(Op::Sub, 0o0402, *b"SUB   ", Class::Addressed, Kind::Fixed),
    Row(Op::Adm, 0o0401, *b"ADM   ", Class::Addressed, Kind::Fixed),
    Row(Op::Sbm, 0o4400, *b"SBM   ", Class::Addressed, Kind::Fixed),
    Row(Op::Acl, 0o0361, *b"ACL   ", Class::Addressed, Kind::Logic),
    Row(Op::Mpy, 0o0200, *b"MPY   ", Class::Addressed, Kind::Fixed),
    Row(Op::Mpr, 0o4200, *b"MPR   ", Class::Addressed, Kind::Fixed),
    Row(Op::Dvp, 0o0221, *b"DVP   ", Class::Addressed, Kind::Fixed),
    Row(Op::Dvh, 0o0220, *b"DVH   ", Class::Addressed, Kind::Fixed),
    Row(Op::Ana, 0o4320, *b"ANA   ", Class::Addressed, Kind::Logic),
    Row(Op::Era, 0o0322, *b"ERA   ", Class::Addressed, Kind::Logic),
    Row(Op::Ora, 0o4501, *b"ORA   ", Class::Addressed, Kind::Logic),
    Row(Op::Ans, 0o0320, *b"ANS   ", Class::Addressed, Kind::Logic),
    Row(Op::Ors, 0o4602, *b"ORS   ", Class::Addressed, Kind::Logic),
    Row(Op::Cas, 0o0340, *b"CAS   ", Class::Addressed, Kind::Fixed),
    Row(Op::Las, 0o4340, *b"LAS   ", Class::Addressed, Kind::Logic),
    Row(Op::Zet, 0o0520, *b"ZET   ", Class::Addressed, Kind::Fixed),
    Row(Op::Nzt, 0o4520, *b"NZT   ", Class::Addressed, Kind::Fixed),
    Row(Op::Xca, 0o0131, *b"XCA   ", Class::Direct, Kind::Fixed),
    Row(Op::Xcl, 0o4130, *b"XCL   ", Class::Direct, Kind::Logic),
    Row(Op::Als, 0o0767, *b"ALS   ", Class::Direct, Kind::Logic),
    Row(Op::Ars, 0o0771, *b"ARS   ", Class::Direct, Kind::Logic),
    Row(Op::Lls, 0o0763, *b"LLS   ", Class::Direct, Kind::Logic),
    Row(Op::Lrs, 0o0765, *b"LRS   ", Class::Direct, Kind::Logic),
    Row(Op::Lgl, 0o4763, *b"LGL   ", Class::Direct, Kind::Logic),
    Row(Op::Lgr, 0o4765, *b"LGR   ", Class::Direct, Kind::Logic),
    Row(Op::Rql, 0o4773, *b"RQL   ", Class::Direct, Kind::Logic),
    Row(Op::Lxa, 0o0534, *b"LXA   ", Class::Tagged, Kind::Index),
    Row(Op::Lxd, 0o4534, *b"LXD   ", Class::Tagged, Kind::Index),
    Row(Op::Lac, 0o0535, *b"LAC   ", Class::Tagged, Kind::Index),
    Row(Op::Ldc, 0o4535, *b"LDC   ", Class::Tagged, Kind::Index),
    Row(Op::Axt, 0o0774, *b"AXT   ", Class::Tagged, Kind::Index),
    Row(Op::Axc, 0o4774, *b"AXC   ", Class::Tagged, Kind::Index),
    Row(Op::Pax, 0o0734, *b"PAX   ", Class::Tagged, Kind::Index),
    Row(Op::Pdx, 0o4734, *b"PDX   ", Class::Tagged, Kind::Index),
    Row(Op::Pac, 0o0737, *b"PAC   ", Class::Tagged, Kind::Index),
    Row(Op::Pdc, 0o4737, *b"PDC   ", Class::Tagged, Kind::Index),
    Row(Op::Sxa, 0o0634, *b"SXA   ", Class::Tagged, Kind::Index),
    Row(Op::Sxd, 0o4634, *b"SXD   ", Class::Tagged, Kind::Index),
    Row(Op::Sca, 0o0636, *b"SCA   ", Class::Tagged, Kind::Index),
    Row(Op::Scd, 0o4636, *b"SCD   ", Class::Tagged, Kind::Index),
    Row(Op::Pxa, 0o0754, *b"PXA   ", Class::Tagged, Kind::Index),
    Row(Op::Pxd, 0o4754, *b"PXD   ", Class::Tagged, Kind::Index),
    Row(Op::Pca, 0o0756, *b"PCA   ", Class::Tagged, Kind::Index),
    Row(Op::Pcd, 0o4756, *b"PCD   ", Class::Tagged, Kind::Index),
    Row(Op::Tra, 0o0020, *b"TRA   ", Class::Addressed, Kind::Index),
    Row(Op::Tze, 0o0100, *b"TZE   ", Class::Addressed, Kind::Index),
    Row(Op::Tnz, 0o4100, *b"TNZ   ", Class::Addressed, Kind::Index),
    Row(Op::Tpl, 0o0120, *b"TPL   ", Class::Addressed, Kind::Index),
    Row(Op::Tmi, 0o4120, *b"TMI   ", Class::Addressed, Kind::Index),
    Row(Op::Tov, 0o0140, *b"TOV   ", Class::Addressed, Kind::Index),
    Row(Op::Tno, 0o4140, *b"TNO   ", Class::Addressed, Kind::Index),
    Row(Op::Tqp, 0o0162, *b"TQP   ", Class::Addressed, Kind::Index),
    Row(Op::Tlq, 0o0040, *b"TLQ   ", Class::Addressed, Kind::Index),
    Row(Op::Tsx, 0o0074, *b"TSX   ", Class::Tagged, Kind::Index),
    Row(Op::Xec, 0o0522, *b"XEC   ", Class::Addressed, Kind::Xec),
    Row(Op::Nop, 0o0761, *b"NOP   ", Class::Direct, Kind::Index),
    Row(Op::Htr, 0o0000, *b"HTR   ", Class::Addressed, Kind::Index),
    Row(Op::Hpr, 0o0420, *b"HPR   ", Class::Direct, Kind::Index),
    Row(Op::Pai, 0o0044, *b"PAI   ", Class::Direct, Kind::Logic),
    Row(Op::Pia, 0o4046, *b"PIA   ", Class::Direct, Kind::Logic),
    Row(Op::Oai, 0o0043, *b"OAI   ", Class::Direct, Kind::Logic),
    Row(Op::Iia, 0o0041, *b"IIA   ", Class::Direct, Kind::Logic),
    Row(Op::Ria, 0o4042, *b"RIA   ", Class::Direct, Kind::Logic),
    Row(Op::Osi, 0o0442, *b"OSI   ", Class::Addressed, Kind::Logic),
    Row(Op::Iis, 0o0440, *b"IIS   ", Class::Addressed, Kind::Logic),
    Row(Op::Ris, 0o0445, *b"RIS   ", Class::Addressed, Kind::Logic),
    Row(Op::Ont, 0o0446, *b"ONT   ", Class::Addressed, Kind::Logic),
    Row(Op::Oft, 0o0444, *b"OFT   ", Class::Addressed, Kind::Logic),
    Row(Op::Tio, 0o0042, *b"TIO   ", Class::Addressed, Kind::Logic),
    Row(Op::Tif, 0o0046, *b"TIF   ", Class::Addressed, Kind::Logic),
    Row(Op::Sir, 0o0055, *b"SIR   ", Class::Tagged, Kind::Logic),
    Row(Op::Sil, 0o4055, *b"SIL   ", Class::Tagged, Kind::Logic),
    Row(Op::Rir, 0o0057, *b"RIR   ", Class::Tagged, Kind::Logic),
    Row(Op::Ril, 0o4057, *b"RIL   ", Class::Tagged, Kind::Logic),
    Row(Op::Rnt, 0o0056, *b"RNT   ", Class::Tagged, Kind::Logic),
    Row(Op::Lnt, 0o4056, *b"LNT   ", Class::Tagged, Kind::Logic),
    Row(Op::Rft, 0o0054, *b"RFT   ", Class::Tagged, Kind::Logic),
    Row(Op::Lft, 0o4054, *b"LFT   ", Class::Tagged, Kind::Logic),
    Row(Op::Tia, 0o0101, *b"TIA   ", Class::Addressed, Kind::Tia),
    Row(Op::Txi, 0o10001, *b"TXI   ", Class::Prefixed, Kind::Index),
    Row(Op::Tix, 0o10002, *b"TIX   ", Class::Prefixed, Kind::Index),
    Row(Op::Txh, 0o10003, *b"TXH   ", Class::Prefixed, Kind::Index),
    Row(Op::Tnx, 0o10006, *b"TNX   ", Class::Prefixed, Kind::Index),
    Row(Op::Txl, 0o10007, *b"TXL   ", Class::Prefixed, Kind::Index),
    Row(Op::Clm, 0o20000, *b"CLM   ", Class::Group, Kind::Fixed),
    Row(Op::Lbt, 0o20001, *b"LBT   ", Class::Group, Kind::Fixed),
    Row(Op::Pbt, 0o120001, *b"PBT   ", Class::Group, Kind::Fixed),
    Row(Op::Chs, 0o20002, *b"CHS   ", Class::Group, Kind::Fixed),
    Row(Op::Ssp, 0o20003, *b"SSP   ", Class::Group, Kind::Fixed),
    Row(Op::Ssm, 0o120003, *b"SSM   ", Class::Group, Kind::Fixed),
    Row(Op::Com, 0o20006, *b"COM   ", Class::Group, Kind::Fixed),
    Row(Op::Rnd, 0o20010, *b"RND   ", Class::Group, Kind::Fixed),
    Row(Op::Dct, 0o20012, *b"DCT   ", Class::Group, Kind::Fixed),
];

/// The row of an operation.
#[inline]
pub(crate) fn row(op: Op) -> &'static Row
    ensures { result.now ≡ row_of op }
{
    &ROWS[op as usize]
}

/// The name of an operation, without its blanks.
pub fn name(op: Op) -> &'static str
    ensures { result.now ≡ text_of op }
{
    match str::from_utf8(&row(op).2[..3]) {
        Ok(text) => text,
        Err(_) => unreachable!(),
    }
}

/// The name without its blanks.
impl fmt::Display for Op {
    ghost use Rattle.std.specs.Prelude.{Some};
    ghost use Rattle.opcode_table.specs.Table.{text_of};

    ghost output = { λ o. Some (text_of o) };

    fn fmt<W: fmt::Write>(&self, f: &mut fmt::Formatter<W>) -> fmt::Result {
        f.write_str(name(*self))
    }
}

/// The operation of a name that is padded with blanks, if there is one.
pub fn op_named(name: &[u8; 6]) -> Option<Op>
    ensures { result ≡ op_with_name name.now }
{
    ROWS.iter().find(|row| row.2 == *name).map(|row| row.0)
}

/// The group that does an operation.
#[inline]
pub fn kind(op: Op) -> Kind
    ensures { result ≡ kind_of op }
{
    row(op).4
}

/// Which fields an operation uses.
#[inline]
pub fn class(op: Op) -> Class
    ensures { result ≡ class_of op }
{
    row(op).3
}
