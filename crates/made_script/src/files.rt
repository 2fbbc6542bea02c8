ghost use Rattle.std.specs.Prelude.{◌≡◌, ◌≤◌, ◌<◌, ◌+◌, ◌++◌, IfOk, OnOk};
ghost use Rattle.text_model.specs.Made.{drawn, draw_of, made_words, file_at, made_files};

use ctss_types::{
    FileBody, FileName, NoMemory, OwnedFile, OwnedFiles, Sequence, UserNo, name_word,
};
use std::alloc::Global;
use word36::Word;

/// The state of the draws behind a state.
fn drawn(x: u32) -> u32
    ensures { result ≡ drawn x }
{
    ((1_664_525 * u64::from(x) + 1_013_904_223) % 4_294_967_296) as u32
}

/// What the draw behind a state gives.
fn draw_of(x: u32) -> u32
    ensures { result ≡ draw_of x }
{
    drawn(x) / 65_536
}

/// A number as a word.
fn word(bits: u64) -> Word
    requires { bits < 0o1000000000000 }
    ensures { result ≡ bits }
{
    match Word::from_bits(bits) {
        Ok(word) => word,
        Err(_) => unreachable!(),
    }
}

/// The words of a program of so many blocks that counts down from a number.
fn words(alloc: Global, blocks: u8, count: u16) -> Result<Vec<Word>, NoMemory>
    requires { count < 32768 }
    ensures { IfOk result (λ v. v.items ≡ made_words blocks count) }
{
    let words = [
        word(u64::from(blocks)),
        word(0o000012000000),
        word(0o077400100000 + u64::from(count)),
        word(0o200001100001),
        word(0o007400400005),
        word(0o000001000007),
        word(0o007400400006),
        word(0o010100000010),
        word(0o010100000011),
        word(0o244645256060),
        word(0o665126436760),
        word(0o242521246060),
    ];
    let mut list = Vec::new(alloc);
    list.extend_from_slice(&words)?;
    Ok(list)
}

/// The file of a user, by two draws.
fn file_at(alloc: Global, user: u8, x: u32) -> Result<OwnedFile, NoMemory>
    requires { (1 ≤ user) × (user ≤ 30) }
    ensures { IfOk result (λ f. f ≡ file_at user x) }
{
    let blocks = 1 + (draw_of(x) % 16) as u8;
    let count = 100 + (draw_of(drawn(x)) % 1000) as u16;
    let words = words(alloc, blocks, count)?;
    Ok(OwnedFile {
        owner: UserNo::of(user),
        body: FileBody {
            name: FileName::new(name_word(b"LOOP"), name_word(b"BSS")),
            mode: 1,
            words: Sequence::from_vec(words),
        },
    })
}

/// Adds a file of each of so many users, by draws from a state on.
#[tactic(auto, using(crate::proofs::Loops::one_file))]
pub fn add_files(
    alloc: Global,
    list: &mut OwnedFiles,
    users: u8,
    start: u32,
) -> Result<(), NoMemory>
    requires { users ≤ 30 }
    ensures { OnOk result (list.new ≡ list.old ++ made_files users 1 start) }
{
    let mut left = users;
    let mut user = 1;
    let mut x = start;
    'users: while left > 0 {
        list.push(file_at(alloc, user, x)?)?;
        left -= 1;
        user += 1;
        x = drawn(drawn(x));
    }
    Ok(())
}

#[cfg(test)]
mod tests {
    use super::*;

    #[test]
    fn eight_draws_from_zero(rt: HostRuntime) {
        let mut x = 0;
        for want in [
            15_470, 18_256, 53_708, 43_769, 25_170, 40_750, 22_526, 41_945,
        ] {
            assert_eq!(rt; draw_of(x), want);
            x = drawn(x);
        }
    }
}
