// The task `divide`: an amount and then weights, parted by blanks or ends of lines; each part is shown, and the sum.
ghost use Rattle.std.specs.Prelude.{◌≡◌, IfOk};
ghost use Rattle.division.specs.Division.{parts_of};

use crate::trouble::Trouble;
use division::divide;
use std::alloc::Global;
use std::num::Saturating;

#[derive(Drop)]
struct Request {
    amount: u64,
    weights: Vec<u64>,
}

fn number(word: &str, place: usize) -> Result<u64, Trouble> {
    word.parse::<u64>().map_err(|_| Trouble::NotANumber(place))
}

fn read(heap: Global, text: &str) -> Result<Request, Trouble> {
    let mut words = text.split_whitespace().zip(1..);
    let (first, place) = words.next().ok_or(Trouble::NoAmount)?;
    let amount = number(first, place)?;
    let weights = words
        .map(|(word, place)| number(word, place))
        .try_collect(heap)?;
    Ok(Request { amount, weights })
}

fn divided(heap: Global, request: &Request) -> Result<Vec<u64>, Trouble>
    ensures { IfOk result (λ parts. parts.items ≡ parts_of request.now.amount request.now.weights.items) }
{
    let mut parts = vec![in heap; 0; request.weights.len()]?;
    divide(
        request.amount,
        request.weights.as_slice(),
        parts.as_mut_slice(),
    )?;
    Ok(parts)
}

// What is printed: the amount, each weight with its part, and the sum of the parts.
pub(crate) fn reply(heap: Global, text: &str) -> Result<String, Trouble> {
    let request = read(heap, text)?;
    let parts = divided(heap, &request)?;
    let amount = request.amount;
    let count = parts.len();
    let mut out = format!(in heap; "{amount} divided over {count} weights\n")?;
    for ((weight, part), place) in request.weights.iter().zip(&parts).zip(1..) {
        let line = format!(in heap; "{place}: weight {weight} part {part}\n")?;
        out.push_str(line.as_str())?;
    }
    let Saturating(sum) = parts.iter().copied().map(Saturating).sum();
    let last = format!(in heap; "sum {sum}\n")?;
    out.push_str(last.as_str())?;
    Ok(out)
}

#[cfg(test)]
mod tests {
    use super::*;
    use crate::saying::said;
    use std::test::Fail;

    #[test]
    fn replies(rt: HostRuntime) -> Result<(), Fail> {
        let cases = [
            (
                "3 5 0 5",
                "3 divided over 3 weights\n1: weight 5 part 1\n2: weight 0 part 0\n3: weight 5 part 2\nsum 3\n",
            ),
            ("", "no amount: write an amount and then the weights"),
            ("ten 1 1", "word 1 is not a whole number"),
            ("10 1 -1", "word 3 is not a whole number"),
            ("10 1 18446744073709551616", "word 3 is not a whole number"),
            ("10", "refused 40 d at 0: the weights sum to 0"),
            (
                "4000000001 1",
                "refused 12 d at 0: the amount is above 4,000,000,000",
            ),
            (
                "1 4000000000 1",
                "refused 25 d at 0: more than 64 weights, or weights above 4,000,000,000 in sum",
            ),
        ];
        for (text, expected) in cases {
            let answer = said(rt.alloc(), reply(rt.alloc(), text))?;
            assert!(rt; answer.as_str() == expected, "{}", text);
        }
        Ok(())
    }
}
