//! Calls that maps and sets have in common.

/// Makes a call on a table. The numbers of a call that takes several become what the table takes; a call that is its own
/// is left to `own`.
macro_rules! answer_table {
    ($table:ident, $other:ident, $alloc:ident, $words:ident, $out:ident, $pairs:ident => $items:expr) => {
        Ok(match *$words {
            ["len"] => Answer::Number($table.len()),
            ["is_empty"] => Answer::Truth($table.is_empty()),
            ["clear"] => {
                $table.clear();
                Answer::DONE
            }
            ["reserve", count] => done($table.reserve(usize::from(read::<u16>(count)?))),
            ["extend", key, step, item, count] => {
                let $pairs = Pairs::read(key, step, item, count)?;
                done($table.extend($items))
            }
            ["from_iter", key, step, item, count] => {
                let $pairs = Pairs::read(key, step, item, count)?;
                keep(Self::from_iter($alloc, $items), $table)
            }
            ["extend_ref"] => done($table.extend_ref(&*$other)),
            ["clone"] => keep($table.clone(), $other),
            _ => return $table.own($other, $alloc, $words, $out),
        })
    };
}

pub(crate) use answer_table;
