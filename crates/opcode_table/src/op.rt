/// An operation of the machine, by its name in the reference manual.
#[derive(Clone, Copy, Debug, PartialEq, Eq, Hash)]
pub enum Op {
    Cla,
    Cls,
    Cal,
    Ldq,
    Ldi,
    Stz,
    Sto,
    Slw,
    Sti,
    Stq,
    Slq,
    Sta,
    Std,
    Stt,
    Stl,
    Stp,
    Add,
    Sub,
    Adm,
    Sbm,
    Acl,
    Mpy,
    Mpr,
    Dvp,
    Dvh,
    Ana,
    Era,
    Ora,
    Ans,
    Ors,
    Cas,
    Las,
    Zet,
    Nzt,
    Xca,
    Xcl,
    Als,
    Ars,
    Lls,
    Lrs,
    Lgl,
    Lgr,
    Rql,
    Lxa,
    Lxd,
    Lac,
    Ldc,
    Axt,
    Axc,
    Pax,
    Pdx,
    Pac,
    Pdc,
    Sxa,
    Sxd,
    Sca,
    Scd,
    Pxa,
    Pxd,
    Pca,
    Pcd,
    Tra,
    Tze,
    Tnz,
    Tpl,
    Tmi,
    Tov,
    Tno,
    Tqp,
    Tlq,
    Tsx,
    Xec,
    Nop,
    Htr,
    Hpr,
    Pai,
    Pia,
    Oai,
    Iia,
    Ria,
    Osi,
    Iis,
    Ris,
    Ont,
    Oft,
    Tio,
    Tif,
    Sir,
    Sil,
    Rir,
    Ril,
    Rnt,
    Lnt,
    Rft,
    Lft,
    Tia,
    Txi,
    Tix,
    Txh,
    Tnx,
    Txl,
    Clm,
    Lbt,
    Pbt,
    Chs,
    Ssp,
    Ssm,
    Com,
    Rnd,
    Dct,
}

/// The group that does an operation: fixed-point arithmetic with loads and stores, logic with shifts and indicators,
/// index registers with transfers; and the two that stand alone.
#[derive(Clone, Copy, Debug, PartialEq, Eq)]
pub enum Kind {
    Fixed,
    Logic,
    Index,
    Xec,
    Tia,
}

/// Which fields an operation uses.
#[derive(Clone, Copy, Debug, PartialEq, Eq)]
pub enum Class {
    /// Address, tag and flag: the address is indexed, and once more through the word there if the flag is set.
    Addressed,
    /// Address and tag: the address is indexed.
    Direct,
    /// Address and tag, which names a register; nothing is indexed.
    Tagged,
    /// Address, tag and decrement, named by a prefix; nothing is indexed.
    Prefixed,
    /// Code 0760, whose operation the address names.
    Group,
}

/// An operation with its number, its name padded with blanks, its class and its group. The number is positions S and
/// 1 to 11; for an operation of a prefix 0o10000 and the prefix, and for one of code 0760 0o20000, the address, and
/// 0o100000 for minus.
#[derive(Clone, Copy)]
pub struct Row(pub Op, pub u32, pub [u8; 6], pub Class, pub Kind);

/// An instruction. The tag is below 8, address and decrement are below 32768; fields that the operation doesn't use
/// are zero.
#[derive(Clone, Copy, Debug, PartialEq, Eq, Hash)]
pub struct Instr {
    pub op: Op,
    pub flag: bool,
    pub tag: u8,
    pub address: u16,
    pub decrement: u16,
}
